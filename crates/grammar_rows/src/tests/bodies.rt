//! Declarations and bodies of subprograms, tasks and protected units.

/// Sources, each with the code and the place of its fault; code 0 where there is a tree.
pub(crate) const ROWS: [(&[u8], (u8, u32, u32)); 48] = [
    (
        b"procedure Main is procedure P; begin null; end Main;",
        (0, 0, 0),
    ),
    (
        b"procedure Main is procedure P (X : in Integer; Y, Z : out Integer); begin null; end Main;",
        (0, 0, 0),
    ),
    (
        b"procedure Main is procedure P (X : in out T); begin null; end Main;",
        (0, 0, 0),
    ),
    (
        b"procedure Main is procedure P (X : out in T); begin null; end Main;",
        (5, 1, 40),
    ),
    (
        b"procedure Main is procedure P (); begin null; end Main;",
        (5, 1, 32),
    ),
    (
        b"procedure Main is procedure P (X : Integer;); begin null; end Main;",
        (5, 1, 44),
    ),
    (
        b"procedure Main is procedure P (X : Integer := 1); begin null; end Main;",
        (5, 1, 44),
    ),
    (
        b"procedure Main is procedure P with Attach_Handler => 3; begin null; end Main;",
        (0, 0, 0),
    ),
    (
        b"procedure Main is function F return Integer; begin null; end Main;",
        (0, 0, 0),
    ),
    (
        b"procedure Main is function F; begin null; end Main;",
        (5, 1, 29),
    ),
    (
        b"procedure Main is function F (X : Integer) return Integer with A; begin null; end Main;",
        (0, 0, 0),
    ),
    (
        b"procedure Main is overriding procedure P (X : in out T); begin null; end Main;",
        (0, 0, 0),
    ),
    (
        b"procedure Main is overriding X : Integer; begin null; end Main;",
        (5, 1, 30),
    ),
    (
        b"procedure Main is procedure P is begin null; end P; begin null; end Main;",
        (0, 0, 0),
    ),
    (
        b"procedure Main is procedure P is begin null; end Q; begin null; end Main;",
        (5, 1, 50),
    ),
    (
        b"procedure Main is function F return Integer is begin return 1; end F; begin null; end Main;",
        (0, 0, 0),
    ),
    (
        b"procedure Main is procedure P is X : Integer; procedure Q; begin null; exception when others => null; end; begin null; end Main;",
        (0, 0, 0),
    ),
    (
        b"procedure Main is procedure P is X; begin null; end Main;",
        (5, 1, 35),
    ),
    (b"procedure Main is use A; begin null; end Main;", (0, 0, 0)),
    (
        b"procedure Main is use A, B; begin null; end Main;",
        (5, 1, 24),
    ),
    (
        b"procedure Main is use A.B; begin null; end Main;",
        (0, 0, 0),
    ),
    (
        b"procedure Main is task T; begin null; end Main;",
        (0, 0, 0),
    ),
    (
        b"procedure Main is task type T with Priority => 3; begin null; end Main;",
        (0, 0, 0),
    ),
    (
        b"procedure Main is task T is entry E; entry F (X : Integer); end T; begin null; end Main;",
        (0, 0, 0),
    ),
    (
        b"procedure Main is task T is end; begin null; end Main;",
        (0, 0, 0),
    ),
    (
        b"procedure Main is task T is end U; begin null; end Main;",
        (5, 1, 33),
    ),
    (
        b"procedure Main is task T is procedure P; end T; begin null; end Main;",
        (5, 1, 29),
    ),
    (
        b"procedure Main is task T is entry E end T; begin null; end Main;",
        (5, 1, 37),
    ),
    (
        b"procedure Main is task type is end; begin null; end Main;",
        (5, 1, 29),
    ),
    (
        b"procedure Main is task body T is begin null; end T; begin null; end Main;",
        (0, 0, 0),
    ),
    (
        b"procedure Main is task body T is begin null; end U; begin null; end Main;",
        (5, 1, 50),
    ),
    (
        b"procedure Main is task body T is null; end T; begin null; end Main;",
        (5, 1, 34),
    ),
    (
        b"procedure Main is task body is begin null; end; begin null; end Main;",
        (5, 1, 29),
    ),
    (
        b"procedure Main is protected P is end P; begin null; end Main;",
        (0, 0, 0),
    ),
    (
        b"procedure Main is protected type P with Priority => 3 is procedure Q; function F return Integer; entry E (X : out T); private X : Integer := 0; end P; begin null; end Main;",
        (0, 0, 0),
    ),
    (
        b"procedure Main is protected P is private end P; begin null; end Main;",
        (0, 0, 0),
    ),
    (
        b"procedure Main is protected P is X : Integer; end P; begin null; end Main;",
        (5, 1, 34),
    ),
    (
        b"procedure Main is protected P; begin null; end Main;",
        (5, 1, 30),
    ),
    (
        b"procedure Main is protected P is procedure Q is begin null; end Q; end P; begin null; end Main;",
        (5, 1, 46),
    ),
    (
        b"procedure Main is protected P is private procedure Q; end P; begin null; end Main;",
        (5, 1, 42),
    ),
    (
        b"procedure Main is protected P is end Q; begin null; end Main;",
        (5, 1, 38),
    ),
    (
        b"procedure Main is protected body P is end P; begin null; end Main;",
        (0, 0, 0),
    ),
    (
        b"procedure Main is protected body P is procedure Q is begin null; end Q; entry E (X : T) when X > 1 is Y : T; begin null; end E; end P; begin null; end Main;",
        (0, 0, 0),
    ),
    (
        b"procedure Main is protected body P is procedure Q; end P; begin null; end Main;",
        (5, 1, 50),
    ),
    (
        b"procedure Main is protected body P is entry E is begin null; end E; end P; begin null; end Main;",
        (5, 1, 47),
    ),
    (
        b"procedure Main is protected body P is X : T; end P; begin null; end Main;",
        (5, 1, 39),
    ),
    (
        b"procedure Main is protected body P is entry E when True is begin null; end F; end P; begin null; end Main;",
        (5, 1, 76),
    ),
    (
        b"procedure Main is protected body P is overriding function F return T is begin return 1; end F; end; begin null; end Main;",
        (0, 0, 0),
    ),
];
