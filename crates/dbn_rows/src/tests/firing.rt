//! Firings and listings in memory.

use crate::tests::scripts::play;
use std::test::Fail;

const FIRINGS: &str = r##"
# a token is taken
+$ one-token
> fire go
< committed 1
do 0 try

# no token is left
+$ one-token
> fire go
> fire go
> marking P
< committed 1
< refused disabled
< marking 0
do 0 try

# nothing is asked
+$ one-token
do 0 try

# errors change nothing
+$ one-token
> fire stop
> launch
> fire go
< error unknown stop
< error line
< committed 1
do 0 try

# a fresh id
+$ tickets
+ (fact Emp "Ann")
+ (token New 1 "printer")
> fire open "printer"
> facts Ticket
> marking Wait
< committed 1 n=#0
< row #0 "printer"
< facts 1
< row 1 #0
< marking 1
do 0 try

# fresh ids begin above all ids
+$ tickets
+ (fact Emp "Ann")
+ (token New 1 "printer")
+ (token Wait 1 #7)
> fire open "printer"
> fire assign #7 "Ann"
> marking Wait
< committed 1 n=#8
< rolled-back 2
< row 1 #7
< row 1 #8
< marking 2
do 0 try

# rolled back by a sentence
+$ tickets
+ (fact Emp "Ann")
+ (token New 2 "printer")
+ (token Desk 1 "Ann")
> fire open "printer"
> fire open "printer"
> fire assign #0 "Ann"
> fire take #1 "Ann"
> facts Resp
> marking Bad
> marking Wait
> marking Desk
< committed 1 n=#0
< committed 2 n=#1
< committed 3
< rolled-back 4
< row #0 "Ann"
< facts 1
< row 1 #1 "Ann"
< marking 1
< marking 0
< marking 0
do 0 try

# nothing of a rolled back firing stays
+$ tickets
+ (fact Emp "Ann")
+ (token New 2 "printer")
+ (token Desk 1 "Ann")
> fire open "printer"
> fire open "printer"
> fire assign #0 "Ann"
> fire take #1 "Ann"
> fire close #0 "Ann"
> marking Idle
< committed 1 n=#0
< committed 2 n=#1
< committed 3
< rolled-back 4
< committed 5
< row 1 "Ann"
< marking 1
do 0 try

# a fact deleted and added is there
+$ keeping
> fire t 1
> facts R
< committed 1
< row 1
< facts 1
do 0 try

# rolled back by a key
+$ keyed
> bindings t
> fire t 1 2
> fire t 1 3
> facts R
> marking Bad
< row x=1 y=2
< row x=1 y=3
< bindings 2
< committed 1
< rolled-back 2
< row 1 2
< facts 1
< row 1 1 3
< marking 1
do 0 try

# a count above the limit
+$ full
> fire up
> marking P
> marking Q
< refused count P
< row 4294967295
< marking 1
< row 1
< marking 1
do 0 try

# no id is left
+$ tickets
+ (token New 2 "a")
+ (token Wait 1 #4611686018427387903)
> fire open "a"
< refused fresh-end
do 0 try

# one id is left
+$ tickets
+ (token New 2 "a")
+ (token Wait 1 #4611686018427387902)
> fire open "a"
> fire open "a"
< committed 1 n=#4611686018427387903
< refused fresh-end
do 0 try

# asked values
+$ asked
> bindings note
> fire note 1
> fire note 1 "yes"
> marking Got
> fire refer 1 #5
> fire refer 1 #4
> marking Ref
> fire refer 1 #0
< row n=1
< row n=2
< bindings 2
< error shape
< committed 1
< row 1 1 "yes"
< marking 1
< refused id
< committed 2
< row 2 #4
< marking 1
< refused disabled
do 0 try

# all members of a group or none
+$ tickets
+ (fact Emp "Ann")
+ (token New 2 "a")
> group open "a" ; open "a" ; assign #0 "Ann" ; assign #1 "Ann"
> marking New
> group open "a" ; assign #0 "Ann"
< member 4 refused disabled
< row 2 "a"
< marking 1
< committed 1 n=#0
< committed 2
< group 2
do 0 try

# bindings in the order of values
+$ tickets
+ (fact Emp "Zoe")
+ (fact Emp "Éva")
+ (token Wait 1 #0)
+ (token Wait 1 #1)
> bindings assign
< row t=#0 e="Zoe"
< row t=#0 e="Éva"
< row t=#1 e="Zoe"
< row t=#1 e="Éva"
< bindings 4
do 0 try

# one token is not two
+$ pairs
+ (token P 1 5)
> bindings two
< bindings 0
do 0 try

# two tokens of one row
+$ pairs
+ (token P 2 5)
> bindings two
< row x=5 y=5
< bindings 1
do 0 try

# two tokens of two rows
+$ pairs
+ (token P 1 5)
+ (token P 1 6)
> bindings two
< row x=5 y=6
< row x=6 y=5
< bindings 2
do 0 try

# a guard that orders
+$ ordered
> bindings up
> fire up 3 -2
> fire up -2 3
> marking Q
< row x=-2 y=3
< bindings 1
< refused disabled
< committed 1
< row 1 3
< marking 1
do 0 try

# a query without answers
+$ no-answers
> marking None
> fire ins 5
> marking None
> fire del 5
> marking None
< marking 0
< committed 1
< marking 0
< committed 2
< marking 0
do 0 try

# a query over all
+$ for-all
> marking All
> fire more "glue"
> marking All
> fire less "glue"
> marking All
< row 1 "Ann"
< marking 1
< committed 1
< marking 0
< committed 2
< row 1 "Ann"
< marking 1
do 0 try

# an answer counts once
+$ projected
> marking V
> fire cut 1 2
> marking V
> fire cut 1 3
> marking V
< row 1 1
< marking 1
< committed 1
< row 1 1
< marking 1
< committed 2
< marking 0
do 0 try

# a quantified variable that stands nowhere
+$ vacuous
> marking V
> fire add "a"
> marking V
< marking 0
< committed 1
< row 1 5
< marking 1
do 0 try

# texts in the order of bytes
+$ words
> bindings t
> fire t "c"
< row x="a"
< row x="b"
< bindings 2
< refused disabled
do 0 try
"##;

#[test]
fn firings_are_tried(rt: HostRuntime) -> Result<(), Fail> {
    play(&rt, rt.alloc(), FIRINGS)
}
