//! The source of a load.
ghost use Rattle.std.specs.Prelude.{◌≡◌, ◌≤◌, ◌+◌, ◌++◌, decimal, IfOk, OnOk};
ghost use Rattle.load_runs.specs.Source.{load_text, declaration_text, body_text};
ghost use Rattle.load_runs.specs.Source.{declarations_from, bodies_from};

use ann_base::NoMemory;
use itoa::Buffer;
use std::alloc::Global;

/// The most tasks of a load.
pub const MOST_TASKS: u32 = 200;

/// The source of a load: a procedure with so many tasks on the 14 lowest priorities, each of which
/// waits ten times for the beginning of its next period.
pub fn load_source(alloc: Global, tasks: u32) -> Result<Vec<u8>, NoMemory>
    requires { tasks ≤ MOST_TASKS }
    ensures text { IfOk result (λ bytes. bytes.items ≡ load_text tasks) }
{
    let mut text = Vec::new(alloc);
    text.extend_from_slice(b"with Ada.Real_Time; use Ada.Real_Time;\nprocedure Load is\n")?;
    write_declarations(&mut text, 1, tasks)?;
    write_bodies(&mut text, 1, tasks)?;
    text.extend_from_slice(b"begin\n   null;\nend Load;\n")?;
    Ok(text)
}

/// Appends the declarations of so many tasks from one on.
#[tactic(auto, using(crate::proofs::MoreTasks::one_more_declaration, crate::proofs::MoreTasks::no_declaration))]
fn write_declarations(text: &mut Vec<u8>, first: u32, count: u32) -> Result<(), NoMemory>
    requires from { 1 ≤ first }
    requires most { first + count ≤ MOST_TASKS + 1 }
    ensures { OnOk result (text.new.items ≡ text.old.items ++ declarations_from first count) }
{
    if count == 0 {
        return Ok(());
    }
    write_declaration(text, first)?;
    write_declarations(text, first + 1, count - 1)
}

/// Appends the declaration of a task.
fn write_declaration(text: &mut Vec<u8>, task: u32) -> Result<(), NoMemory>
    requires from { 1 ≤ task }
    requires most { task ≤ MOST_TASKS }
    ensures { OnOk result (text.new.items ≡ text.old.items ++ declaration_text task) }
{
    text.extend_from_slice(b"   task T")?;
    write_number(text, task)?;
    text.extend_from_slice(b" with Priority => ")?;
    write_number(text, 1 + (task - 1) % 14)?;
    text.extend_from_slice(b";\n")?;
    Ok(())
}

/// Appends the bodies of so many tasks from one on.
#[tactic(auto, using(crate::proofs::MoreTasks::one_more_body, crate::proofs::MoreTasks::no_body))]
fn write_bodies(text: &mut Vec<u8>, first: u32, count: u32) -> Result<(), NoMemory>
    requires from { 1 ≤ first }
    requires most { first + count ≤ MOST_TASKS + 1 }
    ensures { OnOk result (text.new.items ≡ text.old.items ++ bodies_from first count) }
{
    if count == 0 {
        return Ok(());
    }
    write_body(text, first)?;
    write_bodies(text, first + 1, count - 1)
}

/// Appends the body of a task.
fn write_body(text: &mut Vec<u8>, task: u32) -> Result<(), NoMemory>
    requires from { 1 ≤ task }
    requires most { task ≤ MOST_TASKS }
    ensures { OnOk result (text.new.items ≡ text.old.items ++ body_text task) }
{
    text.extend_from_slice(b"   task body T")?;
    write_number(text, task)?;
    text.extend_from_slice(
        b" is\n      Next : Time := Clock;\n   begin\n      for K in 1 .. 10 loop\n         Next := Next + Microseconds (",
    )?;
    write_number(text, 1_000 + 10 * task)?;
    text.extend_from_slice(b");\n         delay until Next;\n      end loop;\n   end T")?;
    write_number(text, task)?;
    text.extend_from_slice(b";\n")?;
    Ok(())
}

/// Appends a number in plain decimal.
fn write_number(text: &mut Vec<u8>, number: u32) -> Result<(), NoMemory>
    ensures { OnOk result (text.new.items ≡ text.old.items ++ decimal number) }
{
    let mut digits = Buffer::new();
    text.extend_from_slice(digits.format(number).as_bytes())?;
    Ok(())
}
