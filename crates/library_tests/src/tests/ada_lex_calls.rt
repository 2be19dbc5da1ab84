//! Sources with the tokens or the fault that the rules give them.
use ada_lex::{
    Delimiter, Kind, LexFault, Reserved, Token, decimals, delimiter_of, is_reserved, lex,
    lower_case, reserved_word, same_word, spelling, text_value, whole_value,
};
use ann_base::{OrMemory, Place};
use std::test::Fail;

/// Code and place of the fault, code 0 where there is none.
fn fault_of(found: Result<Vec<Token>, OrMemory<LexFault>>) -> (u8, u32, u32) {
    match found {
        Ok(_) => (0, 0, 0),
        Err(OrMemory::Fault(LexFault::BadByte(place))) => (1, place.line, place.column),
        Err(OrMemory::Fault(LexFault::BadNumber(place))) => (2, place.line, place.column),
        Err(OrMemory::Fault(LexFault::OpenString(place))) => (3, place.line, place.column),
        Err(OrMemory::Fault(LexFault::TooLong)) => (4, 1, 1),
        Err(OrMemory::Memory) => (9, 0, 0),
    }
}

#[test]
fn faults(rt: HostRuntime) {
    let rows: [(&[u8], (u8, u32, u32)); 5] = [
        (b"  A_1 -- any byte \xFF\n B", (0, 0, 0)),
        (b"340282366920938463463374607431768211455", (0, 0, 0)),
        (b"\n A_ ;", (1, 2, 3)),
        (b"X := 1__0", (2, 1, 6)),
        (b" \"abc", (3, 1, 2)),
    ];
    for (source, want) in rows {
        assert!(rt; fault_of(lex(rt.alloc(), source)) == want, "{source:?}");
    }
}

#[test]
fn tokens(rt: HostRuntime) -> Result<(), Fail> {
    let source = b"if X_1 /= 12.50 then -- no\n\tPut (\"a\"\"b\");";
    let found = lex(rt.alloc(), source)?;
    let rows: [(Kind, u32, u32, u32, u32); 10] = [
        (Kind::Word, 0, 2, 1, 1),
        (Kind::Word, 3, 6, 1, 4),
        (Kind::Delimiter, 7, 9, 1, 8),
        (Kind::Number, 10, 15, 1, 11),
        (Kind::Word, 16, 20, 1, 17),
        (Kind::Word, 28, 31, 2, 2),
        (Kind::Delimiter, 32, 33, 2, 6),
        (Kind::Text, 33, 39, 2, 7),
        (Kind::Delimiter, 39, 40, 2, 13),
        (Kind::Delimiter, 40, 41, 2, 14),
    ];
    assert!(rt; found.len() == 10);
    for ((kind, first, end, line, column), token) in rows.into_iter().zip(found) {
        let place = Place { line, column };
        assert!(rt;
            token
                == Token {
                    kind,
                    first,
                    end,
                    place
                }
        );
    }
    Ok(())
}

#[test]
fn words_and_delimiters(rt: HostRuntime) {
    let words: [(&[u8], Option<Reserved>); 4] = [
        (b"BeGin", Some(Reserved::Begin)),
        (b"xor", Some(Reserved::Xor)),
        (b"First", None),
        (b"Integer", None),
    ];
    for (word, wanted) in words {
        assert!(rt; reserved_word(word) == wanted && is_reserved(word) == wanted.is_some());
    }
    let delimiters: [(&[u8], Option<Delimiter>); 4] = [
        (b":=", Some(Delimiter::Becomes)),
        (b"|", Some(Delimiter::Bar)),
        (b"-", Some(Delimiter::Minus)),
        (b"--", None),
    ];
    for (text, wanted) in delimiters {
        assert!(rt; delimiter_of(text) == wanted);
    }
    for (other, is_same) in [(b"PUT_LINE".as_slice(), true), (b"PutLine", false)] {
        assert!(rt; same_word(b"Put_Line", other) == is_same);
    }
}

#[test]
fn numbers_and_texts(rt: HostRuntime) {
    let alloc = rt.alloc();
    let numbers: [(&[u8], Option<u128>, &[u8]); 2] = [
        (b"1_000.25", Some(1000), b"25"),
        (b"1_000", Some(1000), b""),
    ];
    for (literal, whole, behind_point) in numbers {
        assert!(rt; whole_value(literal) == whole && decimals(literal) == behind_point);
    }
    let lower = lower_case(alloc, b"Put_Line").expect(&rt, "memory");
    assert!(rt; lower.as_slice() == b"put_line".as_slice());
    let text = text_value(alloc, b"\"a\"\"b\"").expect(&rt, "memory");
    assert!(rt; text.as_slice() == b"a\"b".as_slice());
    let token = Token {
        kind: Kind::Word,
        first: 1,
        end: 3,
        place: Place { line: 1, column: 2 },
    };
    assert!(rt; spelling(b"xyz", token) == b"yz".as_slice());
}
