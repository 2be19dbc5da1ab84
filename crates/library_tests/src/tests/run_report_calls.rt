//! Reports of worked traces.
use ann_base::OrMemory;
use run_report::{Account, Report, accounts_tell};
use trace_lines::Malformed;
use trace_reading::read_line;

const LOWER: [&str; 17] = [
    "0 t0 new main 15\n",
    "0 t0 ready 15 tail\n",
    "0 t0 run\n",
    "3 t0 block delay\n",
    "3 t1 new main.t 10\n",
    "3 t1 ready 10 tail\n",
    "3 t1 run\n",
    "5 p1 new main.p 20\n",
    "5 t1 enter p1 write\n",
    "5 t1 ready 20 head\n",
    "6 t0 ready 15 tail\n",
    "9 t1 exit p1\n",
    "9 t1 ready 10 head\n",
    "9 t0 run\n",
    "11 t0 done\n",
    "11 t1 run\n",
    "12 t1 done\n",
];

/// The figures of an account, in order.
fn figures(account: &Account) -> [u64; 7] {
    [
        account.jobs,
        account.worst,
        account.sum,
        account.run,
        account.preempted,
        account.lower,
        account.longest,
    ]
}

#[test]
fn a_report_tells_of_each_task(rt: HostRuntime) {
    let mut report = Report::new(rt.alloc());
    for line in LOWER {
        let (tick, event) = read_line(line.as_bytes()).expect(&rt, "a line");
        report.line(tick, &event).expect(&rt, "taken");
    }
    let accounts: [(u32, &[u8], [u64; 7]); 2] = [
        (0, b"main", [2, 5, 8, 5, 0, 3, 3]),
        (1, b"main.t", [1, 9, 9, 7, 1, 0, 0]),
    ];
    for (place, name, wanted) in accounts {
        let account = report.account(place).expect(&rt, "an account");
        assert!(rt; account.name.as_bytes() == name && figures(&account) == wanted);
    }
    let all = [report.agent_run(), report.idle(), report.ticks()];
    assert!(rt; (report.len(), all) == (2, [0, 0, 12]));
    accounts_tell();
    // a line that is not formed is not taken
    let (tick, event) = read_line(b"12 t0 new main 15\n").expect(&rt, "a line");
    assert!(rt; report.line(tick, &event) == Err(OrMemory::Fault(Malformed)));
    assert!(rt; report.len() == 2);
}
