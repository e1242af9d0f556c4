//! Nets, commands and replies by their names.

/// Each text stands behind a line with its name.
pub(crate) const TEXTS: &str = r##"@one-token
(place P)
(transition go (in P (1)))
(token P 1)
@tickets
(relation Emp (e text))
(relation Ticket (t id) (d text))
(relation Resp (t id) (e text))
(key Ticket t)
(key Resp t)
(foreign Resp (t) Ticket (t))
(foreign Resp (e) Emp (e))
(always busy (forall ((t id) (u id) (e text)) (implies (and (Resp t e) (Resp u e)) (= t u))))
(query idle ((e text)) (and (Emp e) (not (exists ((t id)) (Resp t e)))))
(action register ((t id) (d text)) (delete) (add (Ticket t d)))
(action give ((t id) (e text)) (delete) (add (Resp t e)))
(action finish ((t id) (e text)) (delete (Resp t e)) (add))
(place New text)
(place Wait id)
(place Desk text)
(place Work id text)
(place Bad id text)
(view Idle idle)
(transition open (in New (1 d)) (fresh n) (do register n d) (out Wait (1 n)))
(transition assign (in Wait (1 t)) (read Idle e) (do give t e) (out Work (1 t e)) (back Wait (1 t)))
(transition take (in Wait (1 t)) (in Desk (1 e)) (do give t e) (out Work (1 t e)) (back Bad (1 t e)))
(transition close (in Work (1 t e)) (do finish t e))
@keeping
(relation R (x int))
(action keep ((x int)) (delete (R x)) (add (R x)))
(place P int)
(transition t (in P (1 x)) (do keep x))
(fact R 1)
(token P 1 1)
@no-answers
(relation R (x int))
(query none ((x int)) (and (R x) (not (R x))))
(action put ((x int)) (delete) (add (R x)))
(action drop ((x int)) (delete (R x)) (add))
(place P int)
(place Q int)
(view None none)
(transition ins (in P (1 x)) (do put x) (out Q (1 x)))
(transition del (in Q (1 x)) (do drop x) (out P (1 x)))
(token P 1 5)
@for-all
(relation Emp (e text))
(relation Skill (s text))
(relation Has (e text) (s text))
(query all ((e text)) (and (Emp e) (not (exists ((s text)) (and (Skill s) (not (Has e s)))))))
(action put ((s text)) (delete) (add (Skill s)))
(action drop ((s text)) (delete (Skill s)) (add))
(place P text)
(place Q text)
(view All all)
(transition more (in P (1 s)) (do put s) (out Q (1 s)))
(transition less (in Q (1 s)) (do drop s))
(fact Emp "Ann")
(fact Skill "saw")
(fact Has "Ann" "saw")
(token P 1 "glue")
@projected
(relation R (x int) (y int))
(query firsts ((x int)) (exists ((y int)) (R x y)))
(action drop ((x int) (y int)) (delete (R x y)) (add))
(place P int int)
(view V firsts)
(transition cut (in P (1 x y)) (do drop x y))
(fact R 1 2)
(fact R 1 3)
(token P 1 1 2)
(token P 1 1 3)
@pairs
(place P int)
(transition two (in P (1 x) (1 y)))
@full
(place P)
(place Q)
(transition up (in Q (1)) (out P (1)))
(token P 4294967295)
(token Q 1)
@keyed
(relation R (x int) (y int))
(key R x)
(action put ((x int) (y int)) (delete) (add (R x y)))
(place P int int)
(place Bad int int)
(transition t (in P (1 x y)) (do put x y) (back Bad (1 x y)))
(token P 1 1 2)
(token P 1 1 3)
@ordered
(place P int)
(place Q int)
(transition up (in P (1 x) (1 y)) (guard (< x y)) (out Q (1 y)))
(token P 1 3)
(token P 1 -2)
@asked
(place Ask int)
(place Got int text)
(place Ref id)
(transition note (in Ask (1 n)) (ask (a text)) (out Got (1 n a)))
(transition refer (in Ask (1 n)) (ask (r id)) (out Ref (1 r)))
(token Ask 2 1)
(token Ask 1 2)
(token Ref 1 #4)
@vacuous
(relation R (x int))
(relation E (e text))
(query q ((x int)) (and (R x) (exists ((t text)) (R x))))
(view V q)
(action put ((e text)) (delete) (add (E e)))
(place P text)
(transition add (in P (1 e)) (do put e))
(fact R 5)
(token P 1 "a")
@words
(place P text)
(transition t (in P (1 x)))
(token P 1 "b")
(token P 1 "a")
@two-tokens
(place P)
(transition go (in P (1)))
(token P 2)
@no-token
(place P)
(transition go (in P (1)))
@usage
usage: dbnet check | try | new | run [--every N] | dump | demo [--size N]
@nothing
@start
(relation Emp (e text))
(relation Ticket (t id) (d text))
(relation Resp (t id) (e text))
(key Ticket t)
(key Resp t)
(foreign Resp (t) Ticket (t))
(foreign Resp (e) Emp (e))
(always busy (forall ((t id) (u id) (e text)) (implies (and (Resp t e) (Resp u e)) (= t u))))
(query idle ((e text)) (and (Emp e) (not (exists ((t id)) (Resp t e)))))
(action register ((t id) (d text)) (delete) (add (Ticket t d)))
(action give ((t id) (e text)) (delete) (add (Resp t e)))
(action finish ((t id) (e text)) (delete (Resp t e)) (add))
(place New text)
(place Wait id)
(place Desk text)
(place Work id text)
(place Bad id text)
(view Idle idle)
(transition open (in New (1 d)) (fresh n) (do register n d) (out Wait (1 n)))
(transition assign (in Wait (1 t)) (read Idle e) (do give t e) (out Work (1 t e)) (back Wait (1 t)))
(transition take (in Wait (1 t)) (in Desk (1 e)) (do give t e) (out Work (1 t e)) (back Bad (1 t e)))
(transition close (in Work (1 t e)) (do finish t e))
(fact Emp "Ann")
(token New 2 "printer")
(token Desk 1 "Ann")
@all
group open "printer" ; open "printer"
fire assign #0 "Ann"
fire take #1 "Ann"
facts Resp
marking Bad
marking Wait
checkpoint
@reply-1
committed 1 n=#0
committed 2 n=#1
group 2
@replies-2
committed 1 n=#0
committed 2 n=#1
group 2
committed 3
@replies-3
committed 1 n=#0
committed 2 n=#1
group 2
committed 3
rolled-back 4
@replies-4
committed 1 n=#0
committed 2 n=#1
group 2
committed 3
rolled-back 4
row #0 "Ann"
facts 1
@replies-5
committed 1 n=#0
committed 2 n=#1
group 2
committed 3
rolled-back 4
row #0 "Ann"
facts 1
row 1 #1 "Ann"
marking 1
@replies-6
committed 1 n=#0
committed 2 n=#1
group 2
committed 3
rolled-back 4
row #0 "Ann"
facts 1
row 1 #1 "Ann"
marking 1
marking 0
@replies
committed 1 n=#0
committed 2 n=#1
group 2
committed 3
rolled-back 4
row #0 "Ann"
facts 1
row 1 #1 "Ann"
marking 1
marking 0
checkpoint 2
@tried
committed 1 n=#0
committed 2 n=#1
group 2
committed 3
rolled-back 4
row #0 "Ann"
facts 1
row 1 #1 "Ann"
marking 1
marking 0
error line
@question
fire close #0 "Ann"
facts Ticket
@not-made
store not-made
@exists
store exists
@made
made
@accepted
accepted
@before
refused disabled
facts 0
@opened
refused disabled
row #0 "printer"
row #1 "printer"
facts 2
@assigned
committed 4
row #0 "printer"
row #1 "printer"
facts 2
@taken
committed 5
row #0 "printer"
row #1 "printer"
facts 2
@committed
committed 1
@disabled
refused disabled
@checkpoint
committed 1
checkpoint 3
@fired
marking 0
refused disabled
"##;
