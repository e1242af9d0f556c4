//! The text of a state, which is read again as the same state.

use crate::tests::scripts::play;
use std::test::Fail;

const TRIPS: &str = r##"
# one token
+$ one-token
< made
do 0 new
<$ one-token
do 0 dump
again

# tickets
+$ tickets
+ (fact Emp "Ann")
+ (token New 2 "printer")
+ (token Wait 1 #7)
+ (token Desk 1 "Ann")
+ (token Work 1 #7 "Ann")
+ (token Bad 3 #0 "")
< made
do 0 new
<$ tickets
< (fact Emp "Ann")
< (token New 2 "printer")
< (token Wait 1 #7)
< (token Desk 1 "Ann")
< (token Work 1 #7 "Ann")
< (token Bad 3 #0 "")
do 0 dump
again

# a fact deleted and added
+$ keeping
< made
do 0 new
<$ keeping
do 0 dump
again

# a query without answers
+$ no-answers
< made
do 0 new
<$ no-answers
do 0 dump
again

# a query over all
+$ for-all
< made
do 0 new
<$ for-all
do 0 dump
again

# a query that leaves a column out
+$ projected
< made
do 0 new
<$ projected
do 0 dump
again

# two tokens
+$ pairs
+ (token P 1 5)
+ (token P 1 6)
< made
do 0 new
<$ pairs
< (token P 1 5)
< (token P 1 6)
do 0 dump
again

# the greatest count
+$ full
< made
do 0 new
<$ full
do 0 dump
again

# asked values
+$ asked
< made
do 0 new
<$ asked
do 0 dump
again

# a key
+$ keyed
< made
do 0 new
<$ keyed
do 0 dump
again

# tokens in their order
+$ ordered
< made
do 0 new
< (place P int)
< (place Q int)
< (transition up (in P (1 x) (1 y)) (guard (< x y)) (out Q (1 y)))
< (token P 1 -2)
< (token P 1 3)
do 0 dump
again

# a quantified variable that stands nowhere
+$ vacuous
< made
do 0 new
<$ vacuous
do 0 dump
again

# texts in their order
+$ words
< made
do 0 new
< (place P text)
< (transition t (in P (1 x)))
< (token P 1 "a")
< (token P 1 "b")
do 0 dump
again

# one text for many
+ ; a comment of "(7 #9
+ (place Q int)(place P int text)(token P 1 2 "\"\\")
+x 20282072656c6174696f6e202052092820782020696e74202920287920696429290a
+ (fact R 2 #0) (fact R 1 #1) ; behind
+
+ (token P 2 1 "b")(token P 3 1 "a")
+ (fact R -1 #1)
+ (token Q 1 0)
+ (key R y x)(place S)(token S 9)
< made
do 0 new
< (place Q int)
< (place P int text)
< (relation R (x int) (y id))
< (key R y x)
< (place S)
< (fact R -1 #1)
< (fact R 1 #1)
< (fact R 2 #0)
< (token Q 1 0)
< (token P 3 1 "a")
< (token P 2 1 "b")
< (token P 1 2 "\"\\")
< (token S 9)
do 0 dump
again

# every form of a formula
+ (relation R (x int) (y int))
+ (relation S (x int))
+ (always a (forall ((x int) (y int)) (implies (R x y) (and (<= x y) (or (!= x 7) (S y))))))
+ (always b (not (exists ((x int) (y int)) (and (R x y) (> x 9)))))
+ (always c (and))
+ (query q ((x int)) (and (S x) (>= x -3) (< x 4) (exists ((x int)) (= x 1))))
+ (view V q)
+ (place P int)
+ (transition t (in P (2 x) (1 3)) (read V x) (in P (1 y)) (out P (1 x) (2 y)) (back P (4294967295 x)))
+ (transition u (in P (1 x)) (guard (or (not (= x 1)) (implies (> x 1) (and)))) (ask (a text)) (fresh n))
+ (fact R 1 2)
+ (fact S 2)
+ (token P 4294967295 -9223372036854775808)
< made
do 0 new
< (relation R (x int) (y int))
< (relation S (x int))
< (always a (forall ((x int) (y int)) (implies (R x y) (and (<= x y) (or (!= x 7) (S y))))))
< (always b (not (exists ((x int) (y int)) (and (R x y) (> x 9)))))
< (always c (and))
< (query q ((x int)) (and (S x) (>= x -3) (< x 4) (exists ((x int)) (= x 1))))
< (view V q)
< (place P int)
< (transition t (in P (2 x) (1 3)) (read V x) (in P (1 y)) (out P (1 x) (2 y)) (back P (4294967295 x)))
< (transition u (in P (1 x)) (guard (or (not (= x 1)) (implies (> x 1) (and)))) (ask (a text)) (fresh n))
< (fact R 1 2)
< (fact S 2)
< (token P 4294967295 -9223372036854775808)
do 0 dump
again

# a state after a firing
+$ one-token
< made
do 0 new
> fire go
< committed 1
do 0 run
<$ no-token
do 0 dump
again
"##;

#[test]
fn what_is_written_is_read_again(rt: HostRuntime) -> Result<(), Fail> {
    play(&rt, rt.alloc(), TRIPS)
}
