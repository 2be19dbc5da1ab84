//! Sources of worked programs.

/// Sources, each with the code and the place of its fault; code 0 where there is a tree.
pub(crate) const ROWS: [(&[u8], (u8, u32, u32)); 44] = [
    (
        b"with Ada.Text_IO; use Ada.Text_IO; procedure Main is begin null; Put_Line (\"hi\"); end Main;",
        (0, 0, 0),
    ),
    (b"", (5, 0, 0)),
    (b"-- x\n", (5, 0, 0)),
    (b"procedure Main is begin null; end Mian;", (5, 1, 35)),
    (b"procedure Main is begin X := 1; end Main;", (0, 0, 0)),
    (
        b"procedure Main is X : Integer; begin X := True; end Main;",
        (0, 0, 0),
    ),
    (
        b"with Ada.Text_IO; use Ada.Text_IO; procedure Main is task Hi with Priority => 20; task A; task B; task body Hi is begin delay 0.000010; Put_Line (\"hi\"); end Hi; task body A is begin null; Put_Line (\"a\"); end A; task body B is begin Put_Line (\"b\"); end B; begin null; end Main;",
        (0, 0, 0),
    ),
    (
        b"with Ada.Real_Time; use Ada.Real_Time; procedure Main is task T; task body T is begin delay until Time_First; end T; begin null; end Main;",
        (0, 0, 0),
    ),
    (
        b"procedure Main is protected P with Priority => 9 is procedure Go; end P; protected body P is procedure Go is begin null; end Go; end P; begin P.Go; end Main;",
        (0, 0, 0),
    ),
    (
        b"procedure Main is protected P with Priority => 20 is procedure Go; end P; protected body P is procedure Go is begin null; end Go; end P; begin P.Go; end Main;",
        (0, 0, 0),
    ),
    (
        b"procedure Main is protected P with Priority => 15 is procedure Go; end P; protected body P is procedure Go is begin null; end Go; end P; begin P.Go; end Main;",
        (0, 0, 0),
    ),
    (
        b"procedure Main is protected P with Priority => 10 is procedure Go; end P; task H with Priority => 10; task A with Priority => 10 is entry E; end A; task C with Priority => 20; protected body P is procedure Go is begin null; null; null; end Go; end P; task body H is begin P.Go; end H; task body A is begin accept E; P.Go; end A; task body C is begin delay 0.000010; A.E; end C; begin null; end Main;",
        (0, 0, 0),
    ),
    (
        b"with Ada.Text_IO; use Ada.Text_IO; procedure Main is task T with Priority => 10 is entry E; end T; task body T is begin null; accept E; end T; begin select T.E; Put_Line (\"yes\"); or delay 0.000003; Put_Line (\"no\"); end select; end Main;",
        (0, 0, 0),
    ),
    (
        b"with Ada.Text_IO; use Ada.Text_IO; procedure Main is task T with Priority => 10 is entry E; end T; task body T is begin null; accept E; end T; begin select T.E; Put_Line (\"yes\"); or delay 0.000002; Put_Line (\"no\"); end select; end Main;",
        (0, 0, 0),
    ),
    (
        b"with Ada.Text_IO; use Ada.Text_IO; procedure Main is task A; task B; task body A is X : Positive := 0; begin null; end A; task body B is begin null; end B; begin null; exception when Tasking_Error => Put_Line (\"te\"); end Main;",
        (0, 0, 0),
    ),
    (
        b"with Ada.Text_IO; use Ada.Text_IO; procedure Main is task A; task B; task body A is begin null; end A; task body B is X : Positive := 0; begin null; end B; begin null; exception when Tasking_Error => Put_Line (\"te\"); end Main;",
        (0, 0, 0),
    ),
    (
        b"procedure Main is task T is entry E; end T; task body T is begin select accept E; or terminate; end select; end T; begin null; end Main;",
        (0, 0, 0),
    ),
    (
        b"with Ada.Finalization; use Ada.Finalization; package Pk is type R is new Limited_Controlled with null record; overriding procedure Initialize (O : in out R); end Pk; package body Pk is procedure Initialize (O : in out R) is begin null; null; null; end Initialize; end Pk; with Ada.Text_IO; use Ada.Text_IO; with Pk; procedure Main is begin select delay 0.000014; Put_Line (\"late\"); then abort declare A, B, C : Pk.R; begin null; end; end select; end Main;",
        (0, 0, 0),
    ),
    (
        b"with Ada.Finalization; use Ada.Finalization; package Pk is type R is new Limited_Controlled with null record; overriding procedure Finalize (O : in out R); end Pk; package body Pk is procedure Finalize (O : in out R) is begin null; null; end Finalize; end Pk; with Pk; procedure Main is task T with Priority => 10; task body T is A, B : Pk.R; begin null; end T; begin delay 0.000006; abort T; abort T; end Main;",
        (0, 0, 0),
    ),
    (
        b"with Ada.Text_IO; use Ada.Text_IO; procedure Main is protected P with Priority => 12 is procedure Go; end P; task T with Priority => 10; protected body P is procedure Go is begin null; null; null; end Go; end P; task body T is begin P.Go; Put_Line (\"no\"); end T; begin delay 0.000004; abort T; end Main;",
        (0, 0, 0),
    ),
    (
        b"procedure Main is task T is entry E; end T; task body T is begin accept E; end T; begin null; end Main;",
        (0, 0, 0),
    ),
    (b"procedure Main is begin delay 1.0; end Main;", (0, 0, 0)),
    (
        b"with Ada.Real_Time; use Ada.Real_Time;\nwith Ada.Real_Time.Timing_Events; use Ada.Real_Time.Timing_Events;\npackage Ev is\n   E : Timing_Event;\n   protected H with Interrupt_Priority => 31 is\n      procedure Fire (Event : in out Timing_Event);\n   private\n      N : Integer := 0;\n   end H;\nend Ev;\npackage body Ev is\n   protected body H is\n      procedure Fire (Event : in out Timing_Event) is\n      begin\n         N := N + 1;\n         if N = 1 then\n            Set_Handler (Event, Clock + Microseconds (5), H.Fire'Access);\n         end if;\n      end Fire;\n   end H;\nend Ev;\nwith Ev; with Ada.Text_IO; use Ada.Text_IO;\nwith Ada.Real_Time; use Ada.Real_Time;\nwith Ada.Real_Time.Timing_Events; use Ada.Real_Time.Timing_Events;\nprocedure Main is\n   C : Boolean;\nbegin\n   Set_Handler (Ev.E, Clock, Ev.H.Fire'Access);\n   null;\n   Cancel_Handler (Ev.E, C);\n   if C then Put_Line (\"cancelled\"); end if;\nend Main;\n",
        (0, 0, 0),
    ),
    (
        b"procedure Main is procedure P is begin P; end P; begin P; end Main;",
        (0, 0, 0),
    ),
    (
        b"procedure Main is X : Integer := Integer'Last; begin X := X + 1; end Main;",
        (0, 0, 0),
    ),
    (
        b"with Ada.Text_IO; use Ada.Text_IO; procedure Main is begin Put_Line (\"a\" & Integer'Image (7)); end Main;",
        (0, 0, 0),
    ),
    (
        b"with Ada.Text_IO; use Ada.Text_IO; procedure Main is begin Put_Line (Integer'Image (-2147483648)); end Main;",
        (0, 0, 0),
    ),
    (
        b"with Ada.Real_Time; use Ada.Real_Time;\nwith Ada.Real_Time.Timing_Events; use Ada.Real_Time.Timing_Events;\npackage Plant is\n   protected Buffer with Priority => 25 is\n      procedure Put (X : in Integer);\n      entry Get (X : out Integer);\n   private\n      Full : Boolean := False;\n      Item : Integer := 0;\n   end Buffer;\n   protected Alarm with Interrupt_Priority => 31 is\n      procedure Strike with Attach_Handler => 3;\n      procedure Late (Event : in out Timing_Event);\n   private\n      Hits : Integer := 0;\n   end Alarm;\n   Dog : Timing_Event;\n   task Writer with Priority => 20;\n   task Reader with Priority => 22;\n   task Watch with Priority => 24;\nend Plant;\npackage body Plant is\n   protected body Buffer is\n      procedure Put (X : in Integer) is begin Item := X; Full := True; end Put;\n      entry Get (X : out Integer) when Full is begin X := Item; Full := False; end Get;\n   end Buffer;\n   protected body Alarm is\n      procedure Strike is begin Hits := Hits + 1; end Strike;\n      procedure Late (Event : in out Timing_Event) is begin Hits := Hits + 100; end Late;\n   end Alarm;\n   task body Writer is\n      Next : Time := Clock; N : Integer := 0;\n   begin\n      loop\n         Next := Next + Milliseconds (10); delay until Next;\n         N := N + 1; Buffer.Put (N);\n      end loop;\n   end Writer;\n   task body Reader is\n      Next : Time := Clock; V : Integer;\n   begin\n      loop\n         Next := Next + Milliseconds (20); delay until Next;\n         select Buffer.Get (V); else null; end select;\n      end loop;\n   end Reader;\n   task body Watch is\n      Next : Time := Clock;\n   begin\n      loop\n         Next := Next + Milliseconds (40); delay until Next;\n         Set_Handler (Dog, Milliseconds (90), Alarm.Late'Access);\n      end loop;\n   end Watch;\nend Plant;\nwith Plant;\nprocedure Main is begin null; end Main;\n",
        (0, 0, 0),
    ),
    (
        b"with Ada.Finalization; use Ada.Finalization; package Pk is type R is new Controlled with record N : Integer; end record; overriding procedure Finalize (O : in out R); overriding procedure Adjust (O : in out R); end Pk; package body Pk is procedure Finalize (O : in out R) is begin null; end Finalize; procedure Adjust (O : in out R) is begin O.N := O.N + 1; end Adjust; end Pk; with Ada.Text_IO; use Ada.Text_IO; with Pk; procedure Main is A, B : Pk.R; begin A.N := 5; B := A; B := B; Put_Line (Integer'Image (B.N)); end Main;",
        (0, 0, 0),
    ),
    (
        b"with Ada.Finalization; use Ada.Finalization; package Pk is type R is new Controlled with record N : Integer; end record; overriding procedure Finalize (O : in out R); overriding procedure Adjust (O : in out R); end Pk; package body Pk is procedure Finalize (O : in out R) is begin null; end Finalize; procedure Adjust (O : in out R) is begin O.N := O.N + 1; end Adjust; end Pk; with Ada.Text_IO; use Ada.Text_IO; with Pk; procedure Main is A, B : Pk.R; begin select delay 0.000004; then abort B := A; Put_Line (\"no\"); end select; end Main;",
        (0, 0, 0),
    ),
    (
        b"pragma Restrictions (Max_Entry_Queue_Length => 0); procedure Main is task T with Priority => 10 is entry E; end T; task body T is begin null; accept E; end T; begin T.E; end Main;",
        (0, 0, 0),
    ),
    (
        b"with Ada.Finalization; use Ada.Finalization; package Pk is type R is new Limited_Controlled with null record; overriding procedure Finalize (O : in out R); end Pk; package body Pk is procedure Finalize (O : in out R) is begin raise Constraint_Error; end Finalize; end Pk; with Pk; procedure Main is A, B : Pk.R; begin null; end Main;",
        (0, 0, 0),
    ),
    (
        b"procedure Main is begin loop null; end loop; end Main;",
        (0, 0, 0),
    ),
    (b"procedure Main is begin null;", (5, 0, 0)),
    (
        b"procedure Main is X : Integer := ((((((((((((((((((((((((((((((((((((((((((((((((((((((((((((((((((((((((((((((((((((((((((((((((((((1)))))))))))))))))))))))))))))))))))))))))))))))))))))))))))))))))))))))))))))))))))))))))))))))))))); begin null; end Main;",
        (6, 1, 133),
    ),
    (
        b"procedure Main is X : Integer := (((((((((((((((((((((((((((((((((((((((((((((((((((((((((((((((((((((((((((((((((((((((((((((((((((1))))))))))))))))))))))))))))))))))))))))))))))))))))))))))))))))))))))))))))))))))))))))))))))))))); begin null; end Main;",
        (0, 0, 0),
    ),
    (
        b"procedure Main is X, X : Integer; begin null; end Main;",
        (0, 0, 0),
    ),
    (
        b"with Ada.Real_Time; use Ada.Real_Time; with Ada.Execution_Time; use Ada.Execution_Time; procedure Main is T : Time := Clock; begin null; end Main;",
        (0, 0, 0),
    ),
    (
        b"pragma Task_Dispatching_Policy (Round_Robin_Within_Priorities); with Ada.Real_Time; use Ada.Real_Time; with Ada.Dispatching.Round_Robin; procedure Main is task T; task body T is begin delay 0.0; delay 0.0; null; null; end T; begin Ada.Dispatching.Round_Robin.Set_Quantum (15, Microseconds (4)); delay 0.0; null; null; null; null; null; null; end Main;",
        (0, 0, 0),
    ),
    (b"procedure Main is begin delay 900.0; end Main;", (0, 0, 0)),
    (
        b"with Ada.Text_IO; use Ada.Text_IO; procedure Main is task S is entry A; entry B; end S; task body S is begin accept A do requeue B; end A; accept B do null; end B; end S; begin S.A; Put_Line (\"ok\"); end Main;",
        (0, 0, 0),
    ),
    (
        b"with Ada.Text_IO; use Ada.Text_IO; procedure Main is protected P is entry A; entry B; private Open : Boolean := False; end P; protected body P is entry A when True is begin requeue B with abort; end A; entry B when Open is begin null; end B; end P; begin select P.A; or delay 0.000010; Put_Line (\"late\"); end select; end Main;",
        (0, 0, 0),
    ),
    (
        b"with Ada.Text_IO; use Ada.Text_IO; procedure Main is protected P is entry A; entry B; private Open : Boolean := False; end P; protected body P is entry A when True is begin requeue B; end A; entry B when Open is begin null; end B; end P; begin select P.A; or delay 0.000010; Put_Line (\"late\"); end select; end Main;",
        (0, 0, 0),
    ),
    (
        b"pragma Priority_Range (Wide); with Ada.Text_IO; use Ada.Text_IO; procedure Main is begin null; Put_Line (\"hi\"); end Main;",
        (0, 0, 0),
    ),
];
