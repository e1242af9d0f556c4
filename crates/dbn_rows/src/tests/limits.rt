//! Limits, just met and just passed.

use crate::tests::scripts::play;
use std::test::Fail;

const LIMITS: &str = r##"
# no room for a record
ax db 44424e32 0000000000000001 0000000000000000 0000000000000000 00000031
a$ one-token
ax 00
limit file 91
> fire go
< refused store-full
do 0 run
> group go
< refused store-full
do 0 run
Ax db 44424e32 0000000000000001 0000000000000000 0000000000000000 00000031
A$ one-token
Ax 00
held

# just room for a record
ax db 44424e32 0000000000000001 0000000000000000 0000000000000000 00000031
a$ one-token
ax 00
limit file 92
> fire go
< committed 1
do 0 run
Ax db 44424e32 0000000000000001 0000000000000000 0000000000000000 00000031
A$ one-token
Ax db 00000004 00010000
Ax 00
held

# no room for a second record
+$ two-tokens
< made
do 0 new
limit file 100
> fire go
> fire go
< committed 1
< refused store-full
do 0 run
Ax db 44424e32 0000000000000001 0000000000000000 0000000000000000 00000031
A$ two-tokens
Ax db 00000004 00010000
Ax 00
held

# just room for a second record
+$ two-tokens
< made
do 0 new
limit file 101
> fire go
> fire go
< committed 1
< committed 2
do 0 run
Ax db 44424e32 0000000000000001 0000000000000000 0000000000000000 00000031
A$ two-tokens
Ax db 00000004 00010000
Ax db 00000004 00010000
Ax 00
held

# refused before it is tried for room
ax db 44424e32 0000000000000001 0000000000000000 0000000000000000 00000031
a$ one-token
ax db 00000004 00010000
ax 00
limit file 92
> fire go
> group go
< refused disabled
< refused store-full
do 0 run
Ax db 44424e32 0000000000000001 0000000000000000 0000000000000000 00000031
A$ one-token
Ax db 00000004 00010000
Ax 00
held

# no firing is left
ax db 44424e32 0000000000000001 4000000000000000 0000000000000000 00000031
a$ one-token
ax 00
> fire go
> group go
< refused firing-end
< member 1 refused firing-end
do 0 run
Ax db 44424e32 0000000000000001 4000000000000000 0000000000000000 00000031
A$ one-token
Ax 00
held

# one firing is left
ax db 44424e32 0000000000000001 3fffffffffffffff 0000000000000000 00000031
a$ two-tokens
ax 00
> fire go
> fire go
< committed 4611686018427387904
< refused firing-end
do 0 run
Ax db 44424e32 0000000000000001 3fffffffffffffff 0000000000000000 00000031
A$ two-tokens
Ax db 00000004 00010000
Ax 00
held

# commands that are too long
ax db 44424e32 0000000000000001 0000000000000000 0000000000000000 00000031
a$ two-tokens
ax 00
limit input 8
> fire go
> fire go
< committed 1
do 8 run
Ax db 44424e32 0000000000000001 0000000000000000 0000000000000000 00000031
A$ two-tokens
Ax db 00000004 00010000
Ax 00
held

# commands that are just short enough
ax db 44424e32 0000000000000001 0000000000000000 0000000000000000 00000031
a$ two-tokens
ax 00
limit input 16
> fire go
> fire go
< committed 1
< committed 2
do 0 run
Ax db 44424e32 0000000000000001 0000000000000000 0000000000000000 00000031
A$ two-tokens
Ax db 00000004 00010000
Ax db 00000004 00010000
Ax 00
held

# tried commands that are too long
+$ one-token
limit input 8
> fire go
> fire go
< committed 1
do 8 try
held

# tried commands that are just short enough
+$ one-token
limit input 16
> fire go
> fire go
< committed 1
< refused disabled
do 0 try
held

# a tried net that is too long
+$ one-token
limit net 48
> fire go
do 8 try
do 8 check
held

# a tried net that is just short enough
+$ one-token
limit net 49
> fire go
< committed 1
do 0 try
< accepted
do 0 check
held
"##;

#[test]
fn limits_are_kept(rt: HostRuntime) -> Result<(), Fail> {
    play(&rt, rt.alloc(), LIMITS)
}
