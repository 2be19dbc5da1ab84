//! Select statements.

/// Sources, each with the code and the place of its fault; code 0 where there is a tree.
pub(crate) const ROWS: [(&[u8], (u8, u32, u32)); 33] = [
    (
        b"procedure Main is begin select accept E; end select; end Main;",
        (0, 0, 0),
    ),
    (
        b"procedure Main is begin select accept E; null; or when A => delay 1.0; or terminate; end select; end Main;",
        (0, 0, 0),
    ),
    (
        b"procedure Main is begin select accept E; else null; end select; end Main;",
        (0, 0, 0),
    ),
    (
        b"procedure Main is begin select accept E; else end select; end Main;",
        (5, 1, 47),
    ),
    (
        b"procedure Main is begin select when A accept E; end select; end Main;",
        (5, 1, 39),
    ),
    (
        b"procedure Main is begin select or accept E; end select; end Main;",
        (5, 1, 32),
    ),
    (
        b"procedure Main is begin select accept E; or end select; end Main;",
        (5, 1, 45),
    ),
    (
        b"procedure Main is begin select accept E; or null; end select; end Main;",
        (5, 1, 45),
    ),
    (
        b"procedure Main is begin select terminate; end select; end Main;",
        (0, 0, 0),
    ),
    (
        b"procedure Main is begin select terminate; null; end select; end Main;",
        (5, 1, 43),
    ),
    (
        b"procedure Main is begin select when A => terminate; or accept E do null; end E; X := 1; end select; end Main;",
        (0, 0, 0),
    ),
    (
        b"procedure Main is begin select accept E; or else null; end select; end Main;",
        (5, 1, 45),
    ),
    (
        b"procedure Main is begin select accept E; end; end Main;",
        (5, 1, 45),
    ),
    (
        b"procedure Main is begin select P; or delay 1.0; end select; end Main;",
        (0, 0, 0),
    ),
    (
        b"procedure Main is begin select P (1); null; or delay until X; null; end select; end Main;",
        (0, 0, 0),
    ),
    (
        b"procedure Main is begin select P; or accept E; end select; end Main;",
        (5, 1, 38),
    ),
    (
        b"procedure Main is begin select P; else null; end select; end Main;",
        (0, 0, 0),
    ),
    (
        b"procedure Main is begin select P; end select; end Main;",
        (5, 1, 35),
    ),
    (
        b"procedure Main is begin select P; else end select; end Main;",
        (5, 1, 40),
    ),
    (
        b"procedure Main is begin select P := 1; else null; end select; end Main;",
        (5, 1, 34),
    ),
    (
        b"procedure Main is begin select P; or delay 1.0; or delay 2.0; end select; end Main;",
        (5, 1, 49),
    ),
    (
        b"procedure Main is begin select P; or delay 1.0; else null; end select; end Main;",
        (5, 1, 49),
    ),
    (
        b"procedure Main is begin select P; then abort null; end select; end Main;",
        (0, 0, 0),
    ),
    (
        b"procedure Main is begin select delay 1.0; then abort null; end select; end Main;",
        (0, 0, 0),
    ),
    (
        b"procedure Main is begin select delay 1.0; null; then abort null; end select; end Main;",
        (0, 0, 0),
    ),
    (
        b"procedure Main is begin select P; then null; end select; end Main;",
        (5, 1, 40),
    ),
    (
        b"procedure Main is begin select P; then abort end select; end Main;",
        (5, 1, 46),
    ),
    (
        b"procedure Main is begin select delay 1.0; or accept E; end select; end Main;",
        (0, 0, 0),
    ),
    (
        b"procedure Main is begin select delay 1.0; end select; end Main;",
        (0, 0, 0),
    ),
    (
        b"procedure Main is begin select delay 1.0; else null; end select; end Main;",
        (0, 0, 0),
    ),
    (
        b"procedure Main is begin select null; then abort null; end select; end Main;",
        (5, 1, 32),
    ),
    (
        b"procedure Main is begin select P; or then abort null; end select; end Main;",
        (5, 1, 38),
    ),
    (
        b"procedure Main is begin select when A => delay 1.0; then abort null; end select; end Main;",
        (5, 1, 53),
    ),
];
