//! Pragmas, packages, context clauses and the main procedure.

/// Sources, each with the code and the place of its fault; code 0 where there is a tree.
pub(crate) const ROWS: [(&[u8], (u8, u32, u32)); 40] = [
    (b"procedure Main is begin null; end Main;", (0, 0, 0)),
    (b"", (5, 0, 0)),
    (b"procedure", (5, 0, 0)),
    (b"procedure Main is begin null; end main;", (0, 0, 0)),
    (b"procedure Main is begin null; end Other;", (5, 1, 35)),
    (b"procedure Main is begin null; end Main", (5, 0, 0)),
    (b"procedure Main is begin end Main;", (5, 1, 25)),
    (b"procedure Main is begin null; end Main; x", (5, 1, 41)),
    (
        b"procedure Main is begin null; end Main;procedure Main is begin null; end Main;",
        (5, 1, 40),
    ),
    (b"procedure begin is begin null; end;", (5, 1, 11)),
    (b"procedure Main is begin null; end begin;", (5, 1, 35)),
    (
        b"function Main return Integer is begin null; end Main;",
        (5, 1, 1),
    ),
    (
        b"pragma P (A); procedure Main is begin null; end Main;",
        (0, 0, 0),
    ),
    (
        b"pragma P; procedure Main is begin null; end Main;",
        (5, 1, 9),
    ),
    (
        b"pragma P (); procedure Main is begin null; end Main;",
        (5, 1, 11),
    ),
    (
        b"pragma P (A => 1, B); pragma Q (X); procedure Main is begin null; end Main;",
        (0, 0, 0),
    ),
    (
        b"procedure Main is pragma P (A); begin null; end Main;",
        (5, 1, 19),
    ),
    (
        b"pragma P (A) procedure Main is begin null; end Main;",
        (5, 1, 14),
    ),
    (
        b"with A; use A.B, C; procedure Main is begin null; end Main;",
        (0, 0, 0),
    ),
    (b"with A procedure Main is begin null; end Main;", (5, 1, 8)),
    (b"with ; procedure Main is begin null; end Main;", (5, 1, 6)),
    (
        b"use A.; procedure Main is begin null; end Main;",
        (5, 1, 7),
    ),
    (
        b"use A; with B; procedure Main is begin null; end Main;",
        (0, 0, 0),
    ),
    (
        b"package P is end P; procedure Main is begin null; end Main;",
        (0, 0, 0),
    ),
    (
        b"package P is end Q; procedure Main is begin null; end Main;",
        (5, 1, 18),
    ),
    (
        b"package P is X : Integer; private Y : Integer; end; procedure Main is begin null; end Main;",
        (0, 0, 0),
    ),
    (
        b"package P is begin null; end P; procedure Main is begin null; end Main;",
        (5, 1, 14),
    ),
    (
        b"package P is private private end P; procedure Main is begin null; end Main;",
        (5, 1, 22),
    ),
    (
        b"package is end; procedure Main is begin null; end Main;",
        (5, 1, 9),
    ),
    (
        b"with A; package P is procedure Q; end P; with B; procedure Main is begin null; end Main;",
        (0, 0, 0),
    ),
    (
        b"package body P is end P; procedure Main is begin null; end Main;",
        (0, 0, 0),
    ),
    (
        b"package body P is begin null; end P; procedure Main is begin null; end Main;",
        (0, 0, 0),
    ),
    (
        b"package body P is begin end P; procedure Main is begin null; end Main;",
        (5, 1, 25),
    ),
    (
        b"package body P end P; procedure Main is begin null; end Main;",
        (5, 1, 16),
    ),
    (
        b"package body P is X : Integer; begin null; exception when others => null; end; procedure Main is begin null; end Main;",
        (0, 0, 0),
    ),
    (b"package P is end P;", (5, 0, 0)),
    (
        b"package P is package Q is end Q; end P; procedure Main is begin null; end Main;",
        (5, 1, 14),
    ),
    (
        b"procedure Main with Priority => 3 is begin null; end Main;",
        (0, 0, 0),
    ),
    (
        b"procedure Main with A, B => 2 + 1 is begin null; end;",
        (0, 0, 0),
    ),
    (b"procedure Main with is begin null; end Main;", (5, 1, 21)),
];
