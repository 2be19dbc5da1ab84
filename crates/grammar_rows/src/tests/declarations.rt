//! Declarations of objects, types, subtypes and exceptions.

/// Sources, each with the code and the place of its fault; code 0 where there is a tree.
pub(crate) const ROWS: [(&[u8], (u8, u32, u32)); 38] = [
    (
        b"procedure Main is X : Integer; begin null; end Main;",
        (0, 0, 0),
    ),
    (
        b"procedure Main is X, Y : aliased constant Integer := 1; begin null; end Main;",
        (0, 0, 0),
    ),
    (
        b"procedure Main is X : constant aliased Integer; begin null; end Main;",
        (5, 1, 32),
    ),
    (
        b"procedure Main is X Integer; begin null; end Main;",
        (5, 1, 21),
    ),
    (b"procedure Main is X : ; begin null; end Main;", (5, 1, 23)),
    (
        b"procedure Main is X, : Integer; begin null; end Main;",
        (5, 1, 22),
    ),
    (
        b"procedure Main is X : Integer := ; begin null; end Main;",
        (5, 1, 34),
    ),
    (
        b"procedure Main is X : Integer begin null; end Main;",
        (5, 1, 31),
    ),
    (
        b"procedure Main is X : A.B.C; begin null; end Main;",
        (0, 0, 0),
    ),
    (
        b"procedure Main is X : T (Y'Access); begin null; end Main;",
        (0, 0, 0),
    ),
    (
        b"procedure Main is X : T (Y'First); begin null; end Main;",
        (5, 1, 28),
    ),
    (
        b"procedure Main is X : T (Y.Z'Access; begin null; end Main;",
        (5, 1, 36),
    ),
    (
        b"procedure Main is X : Integer range 1 .. 5; begin null; end Main;",
        (0, 0, 0),
    ),
    (
        b"procedure Main is X : Integer range 1; begin null; end Main;",
        (5, 1, 38),
    ),
    (
        b"procedure Main is X : Integer range 1 .. 5 := 2; begin null; end Main;",
        (0, 0, 0),
    ),
    (
        b"procedure Main is X : Integer range -1 .. A'Last; begin null; end Main;",
        (0, 0, 0),
    ),
    (
        b"procedure Main is E : exception; begin null; end Main;",
        (0, 0, 0),
    ),
    (
        b"procedure Main is E, F : exception; begin null; end Main;",
        (0, 0, 0),
    ),
    (
        b"procedure Main is E : exception := 1; begin null; end Main;",
        (5, 1, 33),
    ),
    (
        b"procedure Main is type C is (Red, Green); begin null; end Main;",
        (0, 0, 0),
    ),
    (
        b"procedure Main is type C is (); begin null; end Main;",
        (5, 1, 30),
    ),
    (
        b"procedure Main is type C is (Red,); begin null; end Main;",
        (5, 1, 34),
    ),
    (
        b"procedure Main is type C is (Red) ; begin null; end Main;",
        (0, 0, 0),
    ),
    (
        b"procedure Main is type C is (1); begin null; end Main;",
        (5, 1, 30),
    ),
    (
        b"procedure Main is type A is array (1 .. 5) of Integer; begin null; end Main;",
        (0, 0, 0),
    ),
    (
        b"procedure Main is type A is array (1) of Integer; begin null; end Main;",
        (5, 1, 37),
    ),
    (
        b"procedure Main is type A is array (1 .. 5) Integer; begin null; end Main;",
        (5, 1, 44),
    ),
    (
        b"procedure Main is type A is array 1 .. 5 of Integer; begin null; end Main;",
        (5, 1, 35),
    ),
    (
        b"procedure Main is type D is new C with null record; begin null; end Main;",
        (0, 0, 0),
    ),
    (
        b"procedure Main is type D is new C with record X : Integer; Y : Boolean := True; end record; begin null; end Main;",
        (0, 0, 0),
    ),
    (
        b"procedure Main is type D is new C with record end record; begin null; end Main;",
        (5, 1, 47),
    ),
    (
        b"procedure Main is type D is new C; begin null; end Main;",
        (5, 1, 34),
    ),
    (
        b"procedure Main is type D is new C with null; begin null; end Main;",
        (5, 1, 44),
    ),
    (
        b"procedure Main is type D is new C with record X : Integer; end; begin null; end Main;",
        (5, 1, 63),
    ),
    (
        b"procedure Main is type D is record X : Integer; end record; begin null; end Main;",
        (5, 1, 29),
    ),
    (
        b"procedure Main is subtype S is Integer range 1 .. 2; begin null; end Main;",
        (0, 0, 0),
    ),
    (
        b"procedure Main is subtype S is; begin null; end Main;",
        (5, 1, 31),
    ),
    (
        b"procedure Main is subtype S Integer; begin null; end Main;",
        (5, 1, 29),
    ),
];
