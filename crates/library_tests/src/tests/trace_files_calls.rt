//! Traces in files: worked ones, and others with a text that is no line.
use super::shelves::shelf;
use ann_base::{Failed, OrMemory};
use trace_files::judge_file;
use trace_laws::{Law, Verdict};

const LAWFUL: &str = "0 t0 new main 15\n0 t0 ready 15 tail\n0 t0 run\n9 t0 done\n9 end completed\n";

const WRONG_RUNNER: &str = "0 t0 new main 15\n0 t0 ready 15 tail\n9 t0 done\n9 end completed\n";

const NEW_TWICE: &str = "0 t0 new main 15\n0 t0 new main 15\n";

const NO_FEED: &str = "0 t0 new main 15\n0 t0 ready 15 tail";

#[test]
fn traces_have_their_verdicts(rt: HostRuntime) {
    // with the call of the shelf that fails, if one does
    let rows = [
        ("", 0, Ok(Verdict::Lawful(0))),
        (LAWFUL, 0, Ok(Verdict::Lawful(5))),
        (WRONG_RUNNER, 0, Ok(Verdict::Broken(3, Law::Dispatch))),
        (NEW_TWICE, 0, Ok(Verdict::Refused(2))),
        (NO_FEED, 0, Ok(Verdict::Refused(2))),
        (LAWFUL, 1, Err(OrMemory::Fault(Failed))),
        (LAWFUL, 3, Err(OrMemory::Fault(Failed))),
    ];
    for (trace, fails, wanted) in rows {
        let mut shelf = shelf(rt.alloc(), b"trace", trace.as_bytes(), 7, &[fails]).expect(
            &rt, "memory",
        );
        assert!(rt;
            judge_file(rt.alloc(), &mut shelf, b"trace") == wanted,
            "{trace}"
        );
    }
}
