//! Sources with the tree or the fault that the grammar gives them.
mod blocks;
mod bodies;
mod declarations;
mod expressions;
mod nesting;
mod selects;
mod statements;
mod units;
mod worked;

use ada_grammar::ParseFault;
use ada_lex::lex;
use ada_parse::parse;
use ann_base::OrMemory;
use std::alloc::Global;
use std::process::Abort;
use std::test::Fail;

/// Code and place of the fault, code 0 where there is a tree; at the end of the source the place is
/// 0:0.
fn fault_of(alloc: Global, source: &[u8]) -> Result<(u8, u32, u32), Fail> {
    let tokens = lex(alloc, source)?;
    let (code, token) = match parse(alloc, source, &tokens) {
        Ok(_) => return Ok((0, 0, 0)),
        Err(OrMemory::Memory) => return Ok((9, 0, 0)),
        Err(OrMemory::Fault(ParseFault::Unexpected { token })) => (5, token),
        Err(OrMemory::Fault(ParseFault::TooDeep { token })) => (6, token),
    };
    match tokens.get(token as usize) {
        None => Ok((code, 0, 0)),
        Some(token) => Ok((code, token.place.line, token.place.column)),
    }
}

fn check(rt: &impl Abort, alloc: Global, rows: &[(&[u8], (u8, u32, u32))]) -> Result<(), Fail> {
    for (source, want) in rows {
        assert_eq!(rt; fault_of(alloc, source)?, *want, "{source:?}");
    }
    Ok(())
}

#[test]
fn library_units(rt: HostRuntime) -> Result<(), Fail> {
    check(&rt, rt.alloc(), &units::ROWS)
}

#[test]
fn declarations_of_each_form(rt: HostRuntime) -> Result<(), Fail> {
    check(&rt, rt.alloc(), &declarations::ROWS)
}

#[test]
fn subprograms_tasks_and_protected_units(rt: HostRuntime) -> Result<(), Fail> {
    check(&rt, rt.alloc(), &bodies::ROWS)
}

#[test]
fn simple_and_compound_statements(rt: HostRuntime) -> Result<(), Fail> {
    check(&rt, rt.alloc(), &statements::ROWS)
}

#[test]
fn blocks_and_transfers(rt: HostRuntime) -> Result<(), Fail> {
    check(&rt, rt.alloc(), &blocks::ROWS)
}

#[test]
fn select_statements(rt: HostRuntime) -> Result<(), Fail> {
    check(&rt, rt.alloc(), &selects::ROWS)
}

#[test]
fn expressions_and_names(rt: HostRuntime) -> Result<(), Fail> {
    check(&rt, rt.alloc(), &expressions::ROWS)
}

#[test]
fn levels_of_nesting(rt: HostRuntime) -> Result<(), Fail> {
    check(&rt, rt.alloc(), &nesting::ROWS)
}

#[test]
fn worked_programs(rt: HostRuntime) -> Result<(), Fail> {
    check(&rt, rt.alloc(), &worked::ROWS)
}
