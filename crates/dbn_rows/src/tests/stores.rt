//! Stores: how they are made, what is recorded, checkpoints, and files that are no store.

use crate::tests::scripts::play;
use std::test::Fail;

const STORES: &str = r##"
# a store is made once
+$ one-token
< made
do 0 new
< store exists
do 4 new
Ax db 44424e32 0000000000000001 0000000000000000 0000000000000000 00000031
A$ one-token
Ax 00
held

# no store was made
< store not-made
do 4 run
< store not-made
do 4 dump
held

# the new file is too long
+$ one-token
limit file 82
< store full
do 4 new
held

# the new file is just short enough
+$ one-token
limit file 83
< made
do 0 new
Ax db 44424e32 0000000000000001 0000000000000000 0000000000000000 00000031
A$ one-token
Ax 00
held

# the net is too long
+$ one-token
limit net 48
do 8 new
held

# the net is just short enough
+$ one-token
limit net 49
< made
do 0 new
Ax db 44424e32 0000000000000001 0000000000000000 0000000000000000 00000031
A$ one-token
Ax 00
held

# a net with a fault
+$ one-token
+ (place P)
< net 4 duplicate
do 3 new
held

# a shut file is written over
+$ one-token
ax 0044424e3200000000000000010000000000000000000000000000000000000031
a$ one-token
ax db 00000004 00010000
ax 00
bx 17
b$ one-token
< made
do 0 new
Ax db 44424e32 0000000000000001 0000000000000000 0000000000000000 00000031
A$ one-token
Ax 00
Bx 17
B$ one-token
held

# an open second file
+$ one-token
bx db00
< store exists
do 4 new
Bx db00
held

# a firing is recorded
+$ one-token
< made
do 0 new
> fire go
< committed 1
do 0 run
Ax db 44424e32 0000000000000001 0000000000000000 0000000000000000 00000031
A$ one-token
Ax db 00000004 00010000
Ax 00
held

# a refused firing is not recorded
ax db 44424e32 0000000000000001 0000000000000000 0000000000000000 00000031
a$ one-token
ax 00
> fire go
> fire go
> fire stop
> marking P
< committed 1
< refused disabled
< error unknown stop
< marking 0
do 0 run
Ax db 44424e32 0000000000000001 0000000000000000 0000000000000000 00000031
A$ one-token
Ax db 00000004 00010000
Ax 00
held

# a firing in form one
ax db 44424e31 0000000000000001 0000000000000000 0000000000000000 00000031
a$ one-token
ax 00
> fire go
< committed 1
do 0 run
> fire go
< refused disabled
do 0 run
Ax db 44424e31 0000000000000001 0000000000000000 0000000000000000 00000031
A$ one-token
Ax db 00000002 0000
Ax 00
held

# a shut gate of any byte ends the records
ax db 44424e32 0000000000000001 0000000000000000 0000000000000000 00000031
a$ one-token
ax 17db000000040001000000
> fire go
< committed 1
do 0 run
Ax db 44424e32 0000000000000001 0000000000000000 0000000000000000 00000031
A$ one-token
Ax db 00000004 00010000
Ax 0000
held

# values in a record
+$ asked
< made
do 0 new
> bindings note
> fire note 1
> fire note 1 "yes"
> marking Got
> fire refer 1 #5
> fire refer 1 #4
> marking Ref
> fire refer 1 #0
< row n=1
< row n=2
< bindings 2
< error shape
< committed 1
< row 1 1 "yes"
< marking 1
< refused id
< committed 2
< row 2 #4
< marking 1
< refused disabled
do 0 run
Ax db 44424e32 0000000000000001 0000000000000000 0000000000000005 000000e6
A$ asked
Ax db 00000013 00010000010000000000000001020003796573
Ax db 00000016 00010001010000000000000001030000000000000004
Ax 00
held

# a group is one record
+$ tickets
+ (fact Emp "Ann")
+ (token New 2 "a")
< made
do 0 new
> group open "a" ; open "a" ; assign #0 "Ann" ; assign #1 "Ann"
> marking New
> group open "a" ; assign #0 "Ann"
< member 4 refused disabled
< row 2 "a"
< marking 1
< committed 1 n=#0
< committed 2
< group 2
do 0 run
Ax db 44424e32 0000000000000001 0000000000000000 0000000000000000 000003ea
A$ tickets
A (fact Emp "Ann")
A (token New 2 "a")
Ax db 00000019 00020000020001610001030000000000000000020003416e6e
Ax 00
held

# no group in form one
ax db 44424e31 0000000000000001 0000000000000000 0000000000000000 00000031
a$ one-token
ax 00
> group go ; go
> fire go
> checkpoint
> group go ; go
< refused old-store
< committed 1
< checkpoint 2
< member 1 refused disabled
do 0 run
Ax db 44424e31 0000000000000001 0000000000000000 0000000000000000 00000031
A$ one-token
Ax db 00000002 0000
Ax 00
Bx db 44424e32 0000000000000002 0000000000000001 0000000000000000 00000025
B$ no-token
Bx 00
held

# texts in the order of bytes
+$ words
< made
do 0 new
> bindings t
> fire t "c"
< row x="a"
< row x="b"
< bindings 2
< refused disabled
do 0 run
Ax db 44424e32 0000000000000001 0000000000000000 0000000000000000 0000004b
A (place P text)
A (transition t (in P (1 x)))
A (token P 1 "a")
A (token P 1 "b")
Ax 00
held

# a quantified variable that stands nowhere
+$ vacuous
< made
do 0 new
> marking V
> fire add "a"
> marking V
< marking 0
< committed 1
< row 1 5
< marking 1
do 0 run
Ax db 44424e32 0000000000000001 0000000000000000 0000000000000000 000000f0
A$ vacuous
Ax db 00000008 0001000002000161
Ax 00
held

# a rolled back firing is recorded
+$ tickets
+ (fact Emp "Ann")
+ (token New 2 "printer")
+ (token Desk 1 "Ann")
< made
do 0 new
> fire open "printer"
> fire open "printer"
> fire assign #0 "Ann"
> fire take #1 "Ann"
< committed 1 n=#0
< committed 2 n=#1
< committed 3
< rolled-back 4
do 0 run
> facts Resp
> marking Bad
> marking Wait
> marking Desk
> fire close #0 "Ann"
> marking Idle
< row #0 "Ann"
< facts 1
< row 1 #1 "Ann"
< marking 1
< marking 0
< marking 0
< committed 5
< row 1 "Ann"
< marking 1
do 0 run
Ax db 44424e32 0000000000000001 0000000000000000 0000000000000000 00000405
A$ tickets
A (fact Emp "Ann")
A (token New 2 "printer")
A (token Desk 1 "Ann")
Ax db 0000000e 000100000200077072696e746572
Ax db 0000000e 000100000200077072696e746572
Ax db 00000013 00010001030000000000000000020003416e6e
Ax db 00000013 00010002030000000000000001020003416e6e
Ax db 00000013 00010003030000000000000000020003416e6e
Ax 00
held

# a checkpoint
ax db 44424e32 0000000000000001 0000000000000000 0000000000000000 00000031
a$ one-token
ax db 00000004 00010000
ax 00
> checkpoint
< checkpoint 2
do 0 run
Ax db 44424e32 0000000000000001 0000000000000000 0000000000000000 00000031
A$ one-token
Ax db 00000004 00010000
Ax 00
Bx db 44424e32 0000000000000002 0000000000000001 0000000000000000 00000025
B$ no-token
Bx 00
held

# the file of the greater generation is opened
ax db 44424e32 0000000000000001 0000000000000000 0000000000000000 00000031
a$ one-token
ax db 00000004 00010000
ax 00
bx db 44424e32 0000000000000002 0000000000000001 0000000000000000 00000025
b$ no-token
bx 00
> marking P
> fire go
> checkpoint
< marking 0
< refused disabled
< checkpoint 3
do 0 run
Ax db 44424e32 0000000000000003 0000000000000001 0000000000000000 00000025
A$ no-token
Ax 00
Bx db 44424e32 0000000000000002 0000000000000001 0000000000000000 00000025
B$ no-token
Bx 00
held

# a new file that is too long
ax db 44424e32 0000000000000001 0000000000000000 0000000000000000 00000031
a$ one-token
ax db 00000004 00010000
ax 00
limit file 70
> checkpoint
< refused store-full
do 0 run
Ax db 44424e32 0000000000000001 0000000000000000 0000000000000000 00000031
A$ one-token
Ax db 00000004 00010000
Ax 00
held

# a new file that is just short enough
ax db 44424e32 0000000000000001 0000000000000000 0000000000000000 00000031
a$ one-token
ax db 00000004 00010000
ax 00
limit file 71
> checkpoint
< checkpoint 2
do 0 run
Ax db 44424e32 0000000000000001 0000000000000000 0000000000000000 00000031
A$ one-token
Ax db 00000004 00010000
Ax 00
Bx db 44424e32 0000000000000002 0000000000000001 0000000000000000 00000025
B$ no-token
Bx 00
held

# a text that is too long
ax db 44424e32 0000000000000001 0000000000000000 0000000000000000 00000031
a$ one-token
ax db 00000004 00010000
ax 00
limit net 36
> checkpoint
< refused store-full
do 0 run
Ax db 44424e32 0000000000000001 0000000000000000 0000000000000000 00000031
A$ one-token
Ax db 00000004 00010000
Ax 00
held

# a text that is just short enough
ax db 44424e32 0000000000000001 0000000000000000 0000000000000000 00000031
a$ one-token
ax db 00000004 00010000
ax 00
limit net 37
> checkpoint
< checkpoint 2
do 0 run
Ax db 44424e32 0000000000000001 0000000000000000 0000000000000000 00000031
A$ one-token
Ax db 00000004 00010000
Ax 00
Bx db 44424e32 0000000000000002 0000000000000001 0000000000000000 00000025
B$ no-token
Bx 00
held

# a checkpoint behind a firing
ax db 44424e32 0000000000000001 0000000000000000 0000000000000000 00000031
a$ one-token
ax 00
> fire go
> checkpoint
< committed 1
< checkpoint 3
do 0 run --every 1
Ax db 44424e32 0000000000000003 0000000000000001 0000000000000000 00000025
A$ no-token
Ax 00
Bx db 44424e32 0000000000000002 0000000000000001 0000000000000000 00000025
B$ no-token
Bx 00
held

# a checkpoint behind a group
ax db 44424e32 0000000000000001 0000000000000000 0000000000000000 00000031
a$ one-token
ax 00
> group go
> checkpoint
< committed 1
< group 1
< checkpoint 3
do 0 run --every=1
Ax db 44424e32 0000000000000003 0000000000000001 0000000000000000 00000025
A$ no-token
Ax 00
Bx db 44424e32 0000000000000002 0000000000000001 0000000000000000 00000025
B$ no-token
Bx 00
held

# a checkpoint that does not fit has no reply
ax db 44424e32 0000000000000001 0000000000000000 0000000000000000 00000031
a$ one-token
ax 00
limit net 36
> fire go
> checkpoint
< committed 1
< refused store-full
do 0 run --every 1
Ax db 44424e32 0000000000000001 0000000000000000 0000000000000000 00000031
A$ one-token
Ax db 00000004 00010000
Ax 00
held

# the last generation
ax db 44424e32 4000000000000000 0000000000000000 0000000000000000 00000031
a$ one-token
ax 00
> checkpoint
> fire go
< refused store-full
< committed 1
do 0 run
Ax db 44424e32 4000000000000000 0000000000000000 0000000000000000 00000031
A$ one-token
Ax db 00000004 00010000
Ax 00
held

# the last generation but one
ax db 44424e32 3fffffffffffffff 0000000000000000 0000000000000000 00000031
a$ one-token
ax 00
> checkpoint
> checkpoint
< checkpoint 4611686018427387904
< refused store-full
do 0 run
Ax db 44424e32 3fffffffffffffff 0000000000000000 0000000000000000 00000031
A$ one-token
Ax 00
Bx db 44424e32 4000000000000000 0000000000000000 0000000000000000 00000031
B$ one-token
Bx 00
held

# a record without its end
ax db 44424e32 0000000000000001 0000000000000000 0000000000000000 00000031
a$ one-token
ax db 00000004 00010000
< store damaged 82
do 4 run
Ax db 44424e32 0000000000000001 0000000000000000 0000000000000000 00000031
A$ one-token
Ax db 00000004 00010000
held

# a record without its last byte
ax db 44424e32 0000000000000001 0000000000000000 0000000000000000 00000031
a$ one-token
ax db00000004000100
< store damaged 82
do 4 run
Ax db 44424e32 0000000000000001 0000000000000000 0000000000000000 00000031
A$ one-token
Ax db00000004000100
held

# a record of form one without its end
ax db 44424e31 0000000000000001 0000000000000000 0000000000000000 00000031
a$ one-token
ax db 00000002 0000
< store damaged 82
do 4 run
Ax db 44424e31 0000000000000001 0000000000000000 0000000000000000 00000031
A$ one-token
Ax db 00000002 0000
held

# a record of form one without its last byte
ax db 44424e31 0000000000000001 0000000000000000 0000000000000000 00000031
a$ one-token
ax db0000000200
< store damaged 82
do 4 run
Ax db 44424e31 0000000000000001 0000000000000000 0000000000000000 00000031
A$ one-token
Ax db0000000200
held

# a store without a gate
ax db 44424e32 0000000000000001 0000000000000000 0000000000000000 00000031
a$ one-token
< store not-a-store
do 4 run
< store not-a-store
do 4 dump
Ax db 44424e32 0000000000000001 0000000000000000 0000000000000000 00000031
A$ one-token
held

# generation 0
ax db 44424e32 0000000000000000 0000000000000000 0000000000000000 00000031
a$ one-token
ax 00
< store not-a-store
do 4 run
Ax db 44424e32 0000000000000000 0000000000000000 0000000000000000 00000031
A$ one-token
Ax 00
held

# another mark
ax db 44424e39 0000000000000001 0000000000000000 0000000000000000 00000031
a$ one-token
ax 00
< store not-a-store
do 4 run
Ax db 44424e39 0000000000000001 0000000000000000 0000000000000000 00000031
A$ one-token
Ax 00
held

# a text longer than the file
ax db 44424e32 0000000000000001 0000000000000000 0000000000000000 ffffffff
a$ one-token
ax 00
< store not-a-store
do 4 run
Ax db 44424e32 0000000000000001 0000000000000000 0000000000000000 ffffffff
A$ one-token
Ax 00
held

# a next id that is not new
ax db 44424e32 0000000000000001 0000000000000000 0000000000000007 000003d9
a$ tickets
a (token Wait 1 #7)
ax 00
< store not-a-store
do 4 run
Ax db 44424e32 0000000000000001 0000000000000000 0000000000000007 000003d9
A$ tickets
A (token Wait 1 #7)
Ax 00
held

# a next id that is new
ax db 44424e32 0000000000000001 0000000000000000 0000000000000008 000003d9
a$ tickets
a (token Wait 1 #7)
ax 00
> marking Wait
< row 1 #7
< marking 1
do 0 run
Ax db 44424e32 0000000000000001 0000000000000000 0000000000000008 000003d9
A$ tickets
A (token Wait 1 #7)
Ax 00
held

# an open byte alone
ax db
< store not-made
do 4 run
Ax db
held

# a second file without a header
ax db 44424e32 0000000000000001 0000000000000000 0000000000000000 00000031
a$ one-token
ax 00
bx db44
< store not-a-store
do 4 run
Ax db 44424e32 0000000000000001 0000000000000000 0000000000000000 00000031
A$ one-token
Ax 00
Bx db44
held

# a record of form one of no transition
ax db 44424e31 0000000000000001 0000000000000000 0000000000000000 00000031
a$ one-token
ax db 00000002 0001
ax 00
< store damaged 82
do 4 run
Ax db 44424e31 0000000000000001 0000000000000000 0000000000000000 00000031
A$ one-token
Ax db 00000002 0001
Ax 00
held

# a record of no transition
ax db 44424e32 0000000000000001 0000000000000000 0000000000000000 00000031
a$ one-token
ax db 00000004 00010001
ax 00
< store damaged 82
do 4 run
Ax db 44424e32 0000000000000001 0000000000000000 0000000000000000 00000031
A$ one-token
Ax db 00000004 00010001
Ax 00
held

# a record of form one with a byte too many
ax db 44424e31 0000000000000001 0000000000000000 0000000000000000 00000031
a$ one-token
ax db 00000003 000000
ax 00
< store damaged 82
do 4 run
Ax db 44424e31 0000000000000001 0000000000000000 0000000000000000 00000031
A$ one-token
Ax db 00000003 000000
Ax 00
held

# a record with a byte too many
ax db 44424e32 0000000000000001 0000000000000000 0000000000000000 00000031
a$ one-token
ax db 00000005 0001000000
ax 00
< store damaged 82
do 4 run
Ax db 44424e32 0000000000000001 0000000000000000 0000000000000000 00000031
A$ one-token
Ax db 00000005 0001000000
Ax 00
held

# a record of form one of a refused firing
ax db 44424e31 0000000000000001 0000000000000000 0000000000000000 00000031
a$ one-token
ax db 00000002 0000
ax db 00000002 0000
ax 00
< store damaged 89
do 4 run
Ax db 44424e31 0000000000000001 0000000000000000 0000000000000000 00000031
A$ one-token
Ax db 00000002 0000
Ax db 00000002 0000
Ax 00
held

# a record of a refused firing
ax db 44424e32 0000000000000001 0000000000000000 0000000000000000 00000031
a$ one-token
ax db 00000004 00010000
ax db 00000004 00010000
ax 00
< store damaged 91
do 4 run
Ax db 44424e32 0000000000000001 0000000000000000 0000000000000000 00000031
A$ one-token
Ax db 00000004 00010000
Ax db 00000004 00010000
Ax 00
held

# a record without members
ax db 44424e32 0000000000000001 0000000000000000 0000000000000000 00000031
a$ one-token
ax db 00000002 0000
ax 00
< store damaged 82
do 4 run
Ax db 44424e32 0000000000000001 0000000000000000 0000000000000000 00000031
A$ one-token
Ax db 00000002 0000
Ax 00
held
"##;

#[test]
fn stores_are_kept(rt: HostRuntime) -> Result<(), Fail> {
    play(&rt, rt.alloc(), STORES)
}
