//! Expressions and names.

/// Sources, each with the code and the place of its fault; code 0 where there is a tree.
pub(crate) const ROWS: [(&[u8], (u8, u32, u32)); 66] = [
    (
        b"procedure Main is begin X := A and B and C; end Main;",
        (0, 0, 0),
    ),
    (
        b"procedure Main is begin X := A and B or C; end Main;",
        (5, 1, 38),
    ),
    (
        b"procedure Main is begin X := A and then B and then C; end Main;",
        (0, 0, 0),
    ),
    (
        b"procedure Main is begin X := A and then B and C; end Main;",
        (5, 1, 47),
    ),
    (
        b"procedure Main is begin X := A and B and then C; end Main;",
        (5, 1, 42),
    ),
    (
        b"procedure Main is begin X := A or else B or C; end Main;",
        (5, 1, 45),
    ),
    (
        b"procedure Main is begin X := A xor B xor C; end Main;",
        (0, 0, 0),
    ),
    (
        b"procedure Main is begin X := A xor B and C; end Main;",
        (5, 1, 38),
    ),
    (b"procedure Main is begin X := A or; end Main;", (5, 1, 34)),
    (b"procedure Main is begin X := A = B; end Main;", (0, 0, 0)),
    (
        b"procedure Main is begin X := A = B = C; end Main;",
        (5, 1, 36),
    ),
    (
        b"procedure Main is begin X := A < B and C >= D; end Main;",
        (0, 0, 0),
    ),
    (b"procedure Main is begin X := A /= B; end Main;", (0, 0, 0)),
    (b"procedure Main is begin X := A <=; end Main;", (5, 1, 34)),
    (
        b"procedure Main is begin X := -A + B - C & D; end Main;",
        (0, 0, 0),
    ),
    (b"procedure Main is begin X := +A; end Main;", (0, 0, 0)),
    (b"procedure Main is begin X := - - A; end Main;", (5, 1, 32)),
    (
        b"procedure Main is begin X := A + -B; end Main;",
        (5, 1, 34),
    ),
    (
        b"procedure Main is begin X := A * B / C mod D rem E; end Main;",
        (0, 0, 0),
    ),
    (b"procedure Main is begin X := A *; end Main;", (5, 1, 33)),
    (b"procedure Main is begin X := -A * B; end Main;", (0, 0, 0)),
    (b"procedure Main is begin X := abs A; end Main;", (0, 0, 0)),
    (b"procedure Main is begin X := not A; end Main;", (0, 0, 0)),
    (
        b"procedure Main is begin X := not not A; end Main;",
        (5, 1, 34),
    ),
    (
        b"procedure Main is begin X := abs -A; end Main;",
        (5, 1, 34),
    ),
    (
        b"procedure Main is begin X := A ** B; end Main;",
        (5, 1, 33),
    ),
    (
        b"procedure Main is begin X := not A and not B; end Main;",
        (0, 0, 0),
    ),
    (b"procedure Main is begin X := 1; end Main;", (0, 0, 0)),
    (b"procedure Main is begin X := 1.5; end Main;", (0, 0, 0)),
    (
        b"procedure Main is begin X := \"a\"\"b\"; end Main;",
        (0, 0, 0),
    ),
    (b"procedure Main is begin X := null; end Main;", (0, 0, 0)),
    (b"procedure Main is begin X := (A); end Main;", (0, 0, 0)),
    (b"procedure Main is begin X := ((A)); end Main;", (0, 0, 0)),
    (b"procedure Main is begin X := (); end Main;", (5, 1, 31)),
    (b"procedure Main is begin X := (A; end Main;", (5, 1, 32)),
    (b"procedure Main is begin X := A); end Main;", (5, 1, 31)),
    (b"procedure Main is begin X := A.B.C; end Main;", (0, 0, 0)),
    (b"procedure Main is begin X := A.; end Main;", (5, 1, 32)),
    (
        b"procedure Main is begin X := A'First; end Main;",
        (0, 0, 0),
    ),
    (
        b"procedure Main is begin X := A'Access; end Main;",
        (0, 0, 0),
    ),
    (
        b"procedure Main is begin X := A'Range; end Main;",
        (5, 1, 32),
    ),
    (
        b"procedure Main is begin X := A'Image (1); end Main;",
        (0, 0, 0),
    ),
    (b"procedure Main is begin X := A'; end Main;", (5, 1, 32)),
    (
        b"procedure Main is begin X := A'Identity; end Main;",
        (0, 0, 0),
    ),
    (
        b"procedure Main is begin X := A'Count; end Main;",
        (0, 0, 0),
    ),
    (b"procedure Main is begin X := A (1); end Main;", (0, 0, 0)),
    (
        b"procedure Main is begin X := A (1) (2); end Main;",
        (5, 1, 36),
    ),
    (
        b"procedure Main is begin X := A (X => 1, 2); end Main;",
        (0, 0, 0),
    ),
    (
        b"procedure Main is begin X := A (X => ); end Main;",
        (5, 1, 38),
    ),
    (
        b"procedure Main is begin X := A (1, ); end Main;",
        (5, 1, 36),
    ),
    (
        b"procedure Main is begin X := A.B'Last (1); end Main;",
        (0, 0, 0),
    ),
    (
        b"procedure Main is begin X := A'First'Last; end Main;",
        (5, 1, 37),
    ),
    (b"procedure Main is begin X := in; end Main;", (5, 1, 30)),
    (
        b"procedure Main is begin X := A in B; end Main;",
        (5, 1, 32),
    ),
    (
        b"procedure Main is begin X := 1 .. 2; end Main;",
        (5, 1, 32),
    ),
    (
        b"procedure Main is begin X := others; end Main;",
        (5, 1, 30),
    ),
    (b"procedure Main is begin X := new T; end Main;", (5, 1, 30)),
    (b"procedure Main is begin goto L; end Main;", (5, 1, 25)),
    (b"procedure Main is begin <<L>> null; end Main;", (5, 1, 25)),
    (
        b"procedure Main is begin pragma P (A); end Main;",
        (5, 1, 25),
    ),
    (b"procedure Main is begin X : T; end Main;", (5, 1, 29)),
    (b"procedure Main is begin end; end Main;", (5, 1, 25)),
    (
        b"procedure Main is begin null; end; begin null; end Main;",
        (5, 1, 36),
    ),
    (b"procedure Main is null; begin null; end Main;", (5, 1, 19)),
    (
        b"procedure Main is generic begin null; end Main;",
        (5, 1, 19),
    ),
    (b"procedure Main is begin ( end Main;", (5, 1, 25)),
];
