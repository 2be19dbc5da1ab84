//! Exits, blocks, handlers, returns, raises, aborts, accepts and requeues.

/// Sources, each with the code and the place of its fault; code 0 where there is a tree.
pub(crate) const ROWS: [(&[u8], (u8, u32, u32)); 42] = [
    (b"procedure Main is begin exit; end Main;", (0, 0, 0)),
    (b"procedure Main is begin exit L; end Main;", (0, 0, 0)),
    (b"procedure Main is begin exit when A; end Main;", (0, 0, 0)),
    (
        b"procedure Main is begin exit L when A; end Main;",
        (0, 0, 0),
    ),
    (b"procedure Main is begin exit when; end Main;", (5, 1, 34)),
    (b"procedure Main is begin exit A.B; end Main;", (5, 1, 31)),
    (
        b"procedure Main is begin begin null; end; end Main;",
        (0, 0, 0),
    ),
    (
        b"procedure Main is begin declare X : T; begin null; end; end Main;",
        (0, 0, 0),
    ),
    (
        b"procedure Main is begin L : declare begin null; end L; end Main;",
        (0, 0, 0),
    ),
    (
        b"procedure Main is begin L : begin null; end M; end Main;",
        (5, 1, 45),
    ),
    (
        b"procedure Main is begin begin null; end L; end Main;",
        (5, 1, 41),
    ),
    (
        b"procedure Main is begin declare null; begin null; end; end Main;",
        (5, 1, 33),
    ),
    (
        b"procedure Main is begin declare begin end; end Main;",
        (5, 1, 39),
    ),
    (
        b"procedure Main is begin begin null; exception when A | B.C => null; when others => null; end; end Main;",
        (0, 0, 0),
    ),
    (
        b"procedure Main is begin begin null; exception end; end Main;",
        (5, 1, 47),
    ),
    (
        b"procedure Main is begin begin null; exception when => null; end; end Main;",
        (5, 1, 52),
    ),
    (
        b"procedure Main is begin begin null; exception when A | others => null; end; end Main;",
        (5, 1, 56),
    ),
    (
        b"procedure Main is begin begin null; exception when A => end; end Main;",
        (5, 1, 57),
    ),
    (b"procedure Main is begin return; end Main;", (0, 0, 0)),
    (
        b"procedure Main is begin return 1 + 2; end Main;",
        (0, 0, 0),
    ),
    (b"procedure Main is begin return end Main;", (5, 1, 32)),
    (b"procedure Main is begin raise; end Main;", (0, 0, 0)),
    (b"procedure Main is begin raise E; end Main;", (0, 0, 0)),
    (b"procedure Main is begin raise A.E; end Main;", (0, 0, 0)),
    (b"procedure Main is begin raise 1; end Main;", (5, 1, 31)),
    (
        b"procedure Main is begin raise E with \"x\"; end Main;",
        (5, 1, 33),
    ),
    (b"procedure Main is begin abort T; end Main;", (0, 0, 0)),
    (
        b"procedure Main is begin abort T, U.V; end Main;",
        (0, 0, 0),
    ),
    (b"procedure Main is begin abort; end Main;", (5, 1, 30)),
    (b"procedure Main is begin abort T U; end Main;", (5, 1, 33)),
    (b"procedure Main is begin accept E; end Main;", (0, 0, 0)),
    (
        b"procedure Main is begin accept E (X : T) do null; end E; end Main;",
        (0, 0, 0),
    ),
    (
        b"procedure Main is begin accept E do null; end; end Main;",
        (0, 0, 0),
    ),
    (
        b"procedure Main is begin accept E do end E; end Main;",
        (5, 1, 37),
    ),
    (
        b"procedure Main is begin accept E do null; end F; end Main;",
        (5, 1, 47),
    ),
    (b"procedure Main is begin accept A.B; end Main;", (5, 1, 33)),
    (
        b"procedure Main is begin accept E (1); end Main;",
        (5, 1, 35),
    ),
    (
        b"procedure Main is begin accept E do null; exception when others => null; end E; end Main;",
        (0, 0, 0),
    ),
    (b"procedure Main is begin requeue E; end Main;", (0, 0, 0)),
    (
        b"procedure Main is begin requeue A.E with abort; end Main;",
        (0, 0, 0),
    ),
    (
        b"procedure Main is begin requeue E with; end Main;",
        (5, 1, 39),
    ),
    (
        b"procedure Main is begin requeue E (1); end Main;",
        (5, 1, 35),
    ),
];
