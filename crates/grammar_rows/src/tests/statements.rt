//! Assignments, calls, delays, and statements with conditions, choices and loops.

/// Sources, each with the code and the place of its fault; code 0 where there is a tree.
pub(crate) const ROWS: [(&[u8], (u8, u32, u32)); 53] = [
    (b"procedure Main is begin null end Main;", (5, 1, 30)),
    (b"procedure Main is begin null; null; end Main;", (0, 0, 0)),
    (b"procedure Main is begin X := 1; end Main;", (0, 0, 0)),
    (b"procedure Main is begin X (1) := 2; end Main;", (0, 0, 0)),
    (
        b"procedure Main is begin X (1, 2) := 2; end Main;",
        (5, 1, 34),
    ),
    (
        b"procedure Main is begin X (A => 1) := 2; end Main;",
        (5, 1, 36),
    ),
    (
        b"procedure Main is begin X'First := 2; end Main;",
        (5, 1, 26),
    ),
    (
        b"procedure Main is begin X.Y (1) := 2; end Main;",
        (0, 0, 0),
    ),
    (b"procedure Main is begin X := 1; Y end Main;", (5, 1, 35)),
    (b"procedure Main is begin P; end Main;", (0, 0, 0)),
    (
        b"procedure Main is begin P (1, A => 2); end Main;",
        (0, 0, 0),
    ),
    (b"procedure Main is begin P.Q; end Main;", (0, 0, 0)),
    (b"procedure Main is begin P (); end Main;", (5, 1, 28)),
    (b"procedure Main is begin P (1; end Main;", (5, 1, 29)),
    (b"procedure Main is begin P (1)(2); end Main;", (5, 1, 30)),
    (b"procedure Main is begin P 1; end Main;", (5, 1, 27)),
    (b"procedure Main is begin P (A =>); end Main;", (5, 1, 32)),
    (b"procedure Main is begin delay 1.0; end Main;", (0, 0, 0)),
    (
        b"procedure Main is begin delay until X; end Main;",
        (0, 0, 0),
    ),
    (b"procedure Main is begin delay; end Main;", (5, 1, 30)),
    (
        b"procedure Main is begin delay until; end Main;",
        (5, 1, 36),
    ),
    (b"procedure Main is begin delay 1.0 end Main;", (5, 1, 35)),
    (
        b"procedure Main is begin if A then null; end if; end Main;",
        (0, 0, 0),
    ),
    (
        b"procedure Main is begin if A then null; elsif B then null; else null; end if; end Main;",
        (0, 0, 0),
    ),
    (
        b"procedure Main is begin if A then end if; end Main;",
        (5, 1, 35),
    ),
    (
        b"procedure Main is begin if A null; end if; end Main;",
        (5, 1, 30),
    ),
    (
        b"procedure Main is begin if A then null; else end if; end Main;",
        (5, 1, 46),
    ),
    (
        b"procedure Main is begin if A then null; else null; elsif B then null; end if; end Main;",
        (5, 1, 52),
    ),
    (
        b"procedure Main is begin if A then null; end; end Main;",
        (5, 1, 44),
    ),
    (
        b"procedure Main is begin if A then null; elsif then null; end if; end Main;",
        (5, 1, 47),
    ),
    (
        b"procedure Main is begin X := (if A then 1 else 2); end Main;",
        (5, 1, 31),
    ),
    (
        b"procedure Main is begin case A is when 1 => null; when 2 | 3 .. 4 => null; when others => null; end case; end Main;",
        (0, 0, 0),
    ),
    (
        b"procedure Main is begin case A is end case; end Main;",
        (5, 1, 35),
    ),
    (
        b"procedure Main is begin case A is when 1 => end case; end Main;",
        (5, 1, 45),
    ),
    (
        b"procedure Main is begin case A is when => null; end case; end Main;",
        (5, 1, 40),
    ),
    (
        b"procedure Main is begin case A when 1 => null; end case; end Main;",
        (5, 1, 32),
    ),
    (
        b"procedure Main is begin case A is when 1 | others => null; end case; end Main;",
        (0, 0, 0),
    ),
    (
        b"procedure Main is begin case A is when 1 => null; end; end Main;",
        (5, 1, 54),
    ),
    (
        b"procedure Main is begin loop null; end loop; end Main;",
        (0, 0, 0),
    ),
    (
        b"procedure Main is begin L : loop null; end loop L; end Main;",
        (0, 0, 0),
    ),
    (
        b"procedure Main is begin loop null; end loop L; end Main;",
        (5, 1, 45),
    ),
    (
        b"procedure Main is begin L : loop null; end loop; end Main;",
        (0, 0, 0),
    ),
    (
        b"procedure Main is begin L : loop null; end loop K; end Main;",
        (5, 1, 49),
    ),
    (
        b"procedure Main is begin while A loop null; end loop; end Main;",
        (0, 0, 0),
    ),
    (
        b"procedure Main is begin for I in 1 .. 5 loop null; end loop; end Main;",
        (0, 0, 0),
    ),
    (
        b"procedure Main is begin for I in reverse 1 .. 5 loop null; end loop; end Main;",
        (0, 0, 0),
    ),
    (
        b"procedure Main is begin for I in 1 loop null; end loop; end Main;",
        (5, 1, 36),
    ),
    (
        b"procedure Main is begin for I of X loop null; end loop; end Main;",
        (5, 1, 31),
    ),
    (
        b"procedure Main is begin loop end loop; end Main;",
        (5, 1, 30),
    ),
    (
        b"procedure Main is begin while loop null; end loop; end Main;",
        (5, 1, 31),
    ),
    (b"procedure Main is begin L : null; end Main;", (5, 1, 29)),
    (b"procedure Main is begin L : X := 1; end Main;", (5, 1, 29)),
    (
        b"procedure Main is begin A.L : loop null; end loop; end Main;",
        (5, 1, 29),
    ),
];
