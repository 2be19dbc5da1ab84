//! The lines of a report.
ghost use Rattle.std.specs.Prelude.{◌≡◌, ◌≤◌, ◌+◌, ◌++◌, decimal, length};
ghost use Rattle.line_writing.specs.declared.buffer.TheConstants.{BUFFER_BYTES};
ghost use Rattle.run_report.specs.Texts.{account_text, totals_text};

use crate::accounts::Account;
use itoa::Buffer;
use line_writing::LineBuffer;

/// The most bytes that a line of a report has, and that its last three lines have.
pub const REPORT_BYTES: usize = 1_300;

/// Appends the line of an account. So many bytes must be free.
pub fn write_account(account: &Account, buffer: &mut LineBuffer)
    requires { length buffer.old + REPORT_BYTES ≤ BUFFER_BYTES }
    ensures { buffer.new ≡ buffer.old ++ account_text account.now }
{
    buffer.append(b"t");
    push_number(account.task.0 as u64, buffer);
    buffer.append(b" ");
    buffer.append(account.name.as_bytes());
    push_figure(b" jobs ", account.jobs, buffer);
    push_figure(b" worst ", account.worst, buffer);
    push_figure(b" sum ", account.sum, buffer);
    push_figure(b" run ", account.run, buffer);
    push_figure(b" preempted ", account.preempted, buffer);
    push_figure(b" lower ", account.lower, buffer);
    push_figure(b" longest ", account.longest, buffer);
    buffer.append(b"\n");
}

/// Appends the last three lines of a report: the ticks of the agent, of nobody, and all. So many
/// bytes must be free.
pub fn write_totals(agent_run: u64, idle: u64, ticks: u64, buffer: &mut LineBuffer)
    requires { length buffer.old + REPORT_BYTES ≤ BUFFER_BYTES }
    ensures { buffer.new ≡ buffer.old ++ totals_text agent_run idle ticks }
{
    push_figure(b"agent run ", agent_run, buffer);
    push_figure(b"\nidle ", idle, buffer);
    push_figure(b"\nticks ", ticks, buffer);
    buffer.append(b"\n");
}

// A label of at most 11 bytes, and a number.
fn push_figure(label: &[u8], figure: u64, buffer: &mut LineBuffer)
    requires label { length label.now ≤ 11 }
    requires room { length buffer.old + 31 ≤ BUFFER_BYTES }
    ensures text { buffer.new ≡ buffer.old ++ (label.now ++ decimal figure) }
    ensures longer { length buffer.new ≤ length buffer.old + 31 }
{
    buffer.append(label);
    push_number(figure, buffer);
}

fn push_number(number: u64, buffer: &mut LineBuffer)
    requires { length buffer.old + 20 ≤ BUFFER_BYTES }
    ensures text { buffer.new ≡ buffer.old ++ decimal number }
    ensures longer { length buffer.new ≤ length buffer.old + 20 }
{
    let mut digits = Buffer::new();
    buffer.append(digits.format(number).as_bytes());
}
