//! Nets that are checked: one for each kind of fault in each kind of declaration.

use crate::tests::scripts::play;
use std::test::Fail;

const FAULTS: &str = r##"
# net 2 syntax
+ (place P)
+ (place Q
+ (place Last)
< net 2 syntax
do 3 check

# net 2 syntax
+ (place P)
+ (place 07)
+ (place Last)
< net 2 syntax
do 3 check

# net 2 declaration
+
+ 7
+ (place Last)
< net 2 declaration
do 3 check

# net 1 declaration
+ (places P)
+ (place Last)
< net 1 declaration
do 3 check

# net 3 declaration
+
+
+ (relation and (a int))
+ (place Last)
< net 3 declaration
do 3 check

# net 2 declaration
+ (relation R (a int))
+ (key R)
+ (place Last)
< net 2 declaration
do 3 check

# net 2 declaration
+ (relation R (a int))
+ (foreign R (a) R)
+ (place Last)
< net 2 declaration
do 3 check

# net 1 declaration
+ (always c)
+ (place Last)
< net 1 declaration
do 3 check

# net 1 declaration
+ (query q (x int) (= x 1))
+ (place Last)
< net 1 declaration
do 3 check

# net 1 declaration
+ (action a () (add) (delete))
+ (place Last)
< net 1 declaration
do 3 check

# net 1 declaration
+ (place P real)
+ (place Last)
< net 1 declaration
do 3 check

# net 1 declaration
+ (view V)
+ (place Last)
< net 1 declaration
do 3 check

# net 2 declaration
+ (place P)
+ (transition T (out P (1)) (in P (1)))
+ (place Last)
< net 2 declaration
do 3 check

# net 1 declaration
+ (transition T (guard (R 1)))
+ (place Last)
< net 1 declaration
do 3 check

# net 1 declaration
+ (transition T (guard (= 1 1)) (guard (= 1 1)))
+ (place Last)
< net 1 declaration
do 3 check

# net 2 declaration
+ (relation R (a int))
+ (fact R x)
+ (place Last)
< net 2 declaration
do 3 check

# net 2 declaration
+ (place P)
+ (token P #1)
+ (place Last)
< net 2 declaration
do 3 check

# net 2 duplicate
+ (relation R)
+ (relation R)
+ (place Last)
< net 2 duplicate
do 3 check

# net 2 duplicate
+
+ (relation R (a int) (a int))
+ (place Last)
< net 2 duplicate
do 3 check

# net 2 duplicate
+ (relation R (a int))
+ (key R a a)
+ (place Last)
< net 2 duplicate
do 3 check

# net 1 duplicate
+ (key R a a)
+ (place Last)
< net 1 duplicate
do 3 check

# net 2 duplicate
+ (relation R (a int))
+ (foreign R (a a) R (a b))
+ (place Last)
< net 2 duplicate
do 3 check

# net 2 duplicate
+ (relation R (a int))
+ (foreign R (a b) R (a a))
+ (place Last)
< net 2 duplicate
do 3 check

# net 2 duplicate
+ (always c (= 1 1))
+ (always c (= 1 1))
+ (place Last)
< net 2 duplicate
do 3 check

# net 1 duplicate
+ (always c (exists ((x int) (x int)) (= x 1)))
+ (place Last)
< net 1 duplicate
do 3 check

# net 2 duplicate
+ (query q () (= 1 1))
+ (query q () (= 1 1))
+ (place Last)
< net 2 duplicate
do 3 check

# net 1 duplicate
+ (query q ((x int) (x int)) (= x 1))
+ (place Last)
< net 1 duplicate
do 3 check

# net 1 duplicate
+ (query q () (forall ((x int) (x int)) (= x 1)))
+ (place Last)
< net 1 duplicate
do 3 check

# net 2 duplicate
+ (action a () (delete) (add))
+ (action a () (delete) (add))
+ (place Last)
< net 2 duplicate
do 3 check

# net 1 duplicate
+ (action a ((p int) (p int)) (delete) (add))
+ (place Last)
< net 1 duplicate
do 3 check

# net 2 duplicate
+ (place P)
+ (place P int)
+ (place Last)
< net 2 duplicate
do 3 check

# net 3 duplicate
+ (query q () (= 1 1))
+ (place P)
+ (view P q)
+ (place Last)
< net 3 duplicate
do 3 check

# net 2 duplicate
+ (transition T)
+ (transition T)
+ (place Last)
< net 2 duplicate
do 3 check

# net 1 duplicate
+ (transition T (ask (x int) (x int)))
+ (place Last)
< net 1 duplicate
do 3 check

# net 2 duplicate
+ (place P int)
+ (transition T (in P (1 x)) (fresh x))
+ (place Last)
< net 2 duplicate
do 3 check

# net 3 duplicate
+ (relation R (a int))
+ (fact R 1)
+ (fact R 1)
+ (place Last)
< net 3 duplicate
do 3 check

# net 3 duplicate
+ (place P int)
+ (token P 1 7)
+ (token P 2 7)
+ (place Last)
< net 3 duplicate
do 3 check

# net 2 unknown
+
+ (key R a)
+ (place Last)
< net 2 unknown
do 3 check

# net 2 unknown
+ (relation R (a int))
+ (key R b)
+ (place Last)
< net 2 unknown
do 3 check

# net 2 unknown
+ (relation R (a int))
+ (foreign S (a) R (a))
+ (place Last)
< net 2 unknown
do 3 check

# net 2 unknown
+ (relation R (a int))
+ (foreign R (a) S (a))
+ (place Last)
< net 2 unknown
do 3 check

# net 2 unknown
+ (relation R (a int))
+ (foreign R (b) R (a))
+ (place Last)
< net 2 unknown
do 3 check

# net 2 unknown
+ (relation R (a int))
+ (foreign R (a) R (b))
+ (place Last)
< net 2 unknown
do 3 check

# net 1 unknown
+ (always c (not (R)))
+ (place Last)
< net 1 unknown
do 3 check

# net 1 unknown
+ (query q () (R))
+ (place Last)
< net 1 unknown
do 3 check

# net 1 unknown
+ (action a () (delete (R)) (add))
+ (place Last)
< net 1 unknown
do 3 check

# net 1 unknown
+ (action a () (delete) (add (R)))
+ (place Last)
< net 1 unknown
do 3 check

# net 1 unknown
+ (view V q)
+ (place Last)
< net 1 unknown
do 3 check

# net 1 unknown
+ (transition T (in P (1)))
+ (place Last)
< net 1 unknown
do 3 check

# net 2 unknown
+ (place P)
+ (transition T (read P))
+ (place Last)
< net 2 unknown
do 3 check

# net 1 unknown
+ (transition T (do a))
+ (place Last)
< net 1 unknown
do 3 check

# net 3 unknown
+ (query q () (= 1 1))
+ (view V q)
+ (transition T (out V (1)))
+ (place Last)
< net 3 unknown
do 3 check

# net 2 unknown
+ (place P)
+ (transition T (out P (1)) (back Q (1)))
+ (place Last)
< net 2 unknown
do 3 check

# net 1 unknown
+ (fact R)
+ (place Last)
< net 1 unknown
do 3 check

# net 1 unknown
+ (token P 1)
+ (place Last)
< net 1 unknown
do 3 check

# net 3 unknown
+ (query q () (= 1 1))
+ (view V q)
+ (token V 1)
+ (place Last)
< net 3 unknown
do 3 check

# net 2 arity
+ (relation R (a int) (b int))
+ (foreign R (a b) R (a))
+ (place Last)
< net 2 arity
do 3 check

# net 2 arity
+ (relation R (a int))
+ (always c (R))
+ (place Last)
< net 2 arity
do 3 check

# net 2 arity
+ (relation R (a int))
+ (query q () (R 1 2))
+ (place Last)
< net 2 arity
do 3 check

# net 2 arity
+ (relation R (a int))
+ (action a () (delete (R)) (add))
+ (place Last)
< net 2 arity
do 3 check

# net 2 arity
+ (relation R (a int))
+ (action a () (delete) (add (R 1 2)))
+ (place Last)
< net 2 arity
do 3 check

# net 2 arity
+ (place P int)
+ (transition T (in P (1)))
+ (place Last)
< net 2 arity
do 3 check

# net 3 arity
+ (query q ((x int)) (= x 1))
+ (view V q)
+ (transition T (read V))
+ (place Last)
< net 3 arity
do 3 check

# net 2 arity
+ (action a ((p int)) (delete) (add))
+ (transition T (do a))
+ (place Last)
< net 2 arity
do 3 check

# net 2 arity
+ (place P)
+ (transition T (out P (1 7)))
+ (place Last)
< net 2 arity
do 3 check

# net 2 arity
+ (place P)
+ (transition T (back P (1 7)))
+ (place Last)
< net 2 arity
do 3 check

# net 2 arity
+ (relation R (a int))
+ (fact R)
+ (place Last)
< net 2 arity
do 3 check

# net 2 arity
+ (place P)
+ (token P 1 7)
+ (place Last)
< net 2 arity
do 3 check

# net 2 type-clash
+ (relation R (a int) (b text))
+ (foreign R (a) R (b))
+ (place Last)
< net 2 type-clash
do 3 check

# net 2 type-clash
+
+ (always c (= 1 "a"))
+ (place Last)
< net 2 type-clash
do 3 check

# net 1 type-clash
+ (query q ((x text)) (= x 1))
+ (place Last)
< net 1 type-clash
do 3 check

# net 1 type-clash
+ (query q ((x text)) (< x "b"))
+ (place Last)
< net 1 type-clash
do 3 check

# net 2 type-clash
+ (relation R (a int))
+ (action a ((p text)) (delete) (add (R p)))
+ (place Last)
< net 2 type-clash
do 3 check

# net 3 type-clash
+ (place P int)
+ (place Q text)
+ (transition T (in P (1 x)) (in Q (1 x)))
+ (place Last)
< net 3 type-clash
do 3 check

# net 3 type-clash
+ (place P int)
+ (place Q text)
+ (transition T (in P (1 x)) (out Q (1 x)))
+ (place Last)
< net 3 type-clash
do 3 check

# net 2 type-clash
+ (place P int)
+ (transition T (in P (1 x)) (guard (= x "a")))
+ (place Last)
< net 2 type-clash
do 3 check

# net 2 type-clash
+ (place P int)
+ (transition T (fresh x) (back P (1 x)))
+ (place Last)
< net 2 type-clash
do 3 check

# net 2 type-clash
+ (action a ((p int)) (delete) (add))
+ (transition T (do a "x"))
+ (place Last)
< net 2 type-clash
do 3 check

# net 2 type-clash
+ (relation R (a int))
+ (fact R "1")
+ (place Last)
< net 2 type-clash
do 3 check

# net 2 type-clash
+ (place P id)
+ (token P 1 7)
+ (place Last)
< net 2 type-clash
do 3 check

# net 2 unbound
+ (relation R (a int))
+ (always c (R x))
+ (place Last)
< net 2 unbound
do 3 check

# net 2 unbound
+ (relation R (a int))
+ (query q () (R x))
+ (place Last)
< net 2 unbound
do 3 check

# net 1 unbound
+ (query q ((x int)) (= 1 1))
+ (place Last)
< net 1 unbound
do 3 check

# net 2 unbound
+ (relation R (a int))
+ (action a () (delete) (add (R p)))
+ (place Last)
< net 2 unbound
do 3 check

# net 1 unbound
+ (transition T (guard (= x 1)) (ask (x int)))
+ (place Last)
< net 1 unbound
do 3 check

# net 2 unbound
+ (place P id)
+ (transition T (guard (= x #1)) (fresh x) (out P (1 x)))
+ (place Last)
< net 2 unbound
do 3 check

# net 2 unbound
+ (action a ((p int)) (delete) (add))
+ (transition T (do a x))
+ (place Last)
< net 2 unbound
do 3 check

# net 2 unbound
+ (place P int)
+ (transition T (out P (1 x)))
+ (place Last)
< net 2 unbound
do 3 check

# net 1 unsafe
+ (query q ((x int)) (!= x 1))
+ (place Last)
< net 1 unsafe
do 3 check

# net 2 unsafe
+ (relation R (a int))
+ (always c (exists ((x int)) (not (R x))))
+ (place Last)
< net 2 unsafe
do 3 check

# net 2 count
+ (place P)
+ (transition T (in P (0)))
+ (place Last)
< net 2 count
do 3 check

# net 2 count
+ (place P)
+ (transition T (out P (1) (-1)))
+ (place Last)
< net 2 count
do 3 check

# net 2 count
+ (place P)
+ (transition T (back P (4294967296)))
+ (place Last)
< net 2 count
do 3 check

# net 2 count
+ (place P)
+ (token P 0)
+ (place Last)
< net 2 count
do 3 check

# net 2 count
+ (place P)
+ (token P 4294967296)
+ (place Last)
< net 2 count
do 3 check

# net 2 inconsistent
+ (relation R (a int) (b int))
+ (key R a)
+ (fact R 1 1)
+ (fact R 1 2)
+ (place Last)
< net 2 inconsistent
do 3 check

# net 3 inconsistent
+ (relation R (a int))
+ (relation S (a int))
+ (foreign R (a) S (a))
+ (fact R 1)
+ (place Last)
< net 3 inconsistent
do 3 check

# net 2 inconsistent
+ (relation R (a int))
+ (always c (not (R 1)))
+ (fact R 1)
+ (place Last)
< net 2 inconsistent
do 3 check

# net 2 inconsistent
+ (relation R (a int))
+ (always c (not (R 1)))
+ (always d (R 2))
+ (fact R 1)
+ (place Last)
< net 2 inconsistent
do 3 check

# net 3 inconsistent
+ (relation R (a int))
+ (always c (R 1))
+ (always d (not (R 1)))
+ (fact R 1)
+ (place Last)
< net 3 inconsistent
do 3 check

# relation, just within
+x 2872656c6174696f6e20
+* 64 n
+ )
< accepted
do 0 check

# relation, just past
+x 2872656c6174696f6e20
+* 65 n
+ )
< net 1 limit
do 3 check

# key R, just within
+x 286b6579205220
+* 64 n
+ )
< net 1 unknown
do 3 check

# key R, just past
+x 286b6579205220
+* 65 n
+ )
< net 1 limit
do 3 check

# foreign R, just within
+- (foreign R (a) S (
+* 64 n
+ ))
< net 1 unknown
do 3 check

# foreign R, just past
+- (foreign R (a) S (
+* 65 n
+ ))
< net 1 limit
do 3 check

# always c, just within
+- (always c (
+* 64 n
+ ))
< net 1 unknown
do 3 check

# always c, just past
+- (always c (
+* 65 n
+ ))
< net 1 limit
do 3 check

# query q, just within
+x 287175657279207120282920283d20
+* 64 n
+x 203129290a
< net 1 unbound
do 3 check

# query q, just past
+x 287175657279207120282920283d20
+* 65 n
+x 203129290a
< net 1 limit
do 3 check

# action, just within
+x 28616374696f6e20
+* 64 n
+x 202829202864656c65746529202861646429290a
< accepted
do 0 check

# action, just past
+x 28616374696f6e20
+* 65 n
+x 202829202864656c65746529202861646429290a
< net 1 limit
do 3 check

# place, just within
+x 28706c61636520
+* 64 n
+ )
< accepted
do 0 check

# place, just past
+x 28706c61636520
+* 65 n
+ )
< net 1 limit
do 3 check

# view V, just within
+x 2876696577205620
+* 64 n
+ )
< net 1 unknown
do 3 check

# view V, just past
+x 2876696577205620
+* 65 n
+ )
< net 1 limit
do 3 check

# transition T, just within
+x 287472616e736974696f6e20542028696e20
+* 64 n
+x 2028312929290a
< net 1 unknown
do 3 check

# transition T, just past
+x 287472616e736974696f6e20542028696e20
+* 65 n
+x 2028312929290a
< net 1 limit
do 3 check

# fact, just within
+x 286661637420
+* 64 n
+ )
< net 1 unknown
do 3 check

# fact, just past
+x 286661637420
+* 65 n
+ )
< net 1 limit
do 3 check

# token, just within
+x 28746f6b656e20
+* 64 n
+x 2031290a
< net 1 unknown
do 3 check

# token, just past
+x 28746f6b656e20
+* 65 n
+x 2031290a
< net 1 limit
do 3 check

# relation R, just within
+- (relation R
+* 16  (a int)
+ )
< net 1 duplicate
do 3 check

# relation R, just past
+- (relation R
+* 17  (a int)
+ )
< net 1 limit
do 3 check

# query q, just within
+- (query q (
+* 16 (a int)
+ ) (= a 1))
< net 1 duplicate
do 3 check

# query q, just past
+- (query q (
+* 17 (a int)
+ ) (= a 1))
< net 1 limit
do 3 check

# action a, just within
+- (action a (
+* 16 (a int)
+ ) (delete) (add))
< net 1 duplicate
do 3 check

# action a, just past
+- (action a (
+* 17 (a int)
+ ) (delete) (add))
< net 1 limit
do 3 check

# place P, just within
+- (place P
+* 16  int
+ )
< accepted
do 0 check

# place P, just past
+- (place P
+* 17  int
+ )
< net 1 limit
do 3 check

# transition T, just within
+- (transition T (ask
+* 16  (a int)
+ ))
< net 1 duplicate
do 3 check

# transition T, just past
+- (transition T (ask
+* 17  (a int)
+ ))
< net 1 limit
do 3 check

# transition T, just within
+- (transition T (fresh
+* 16  a
+ ))
< net 1 duplicate
do 3 check

# transition T, just past
+- (transition T (fresh
+* 17  a
+ ))
< net 1 limit
do 3 check

# an empty net
< accepted
do 0 check

# a query that is not safe
+ (relation R (x int))
+ (always a (exists ((x int)) (not (R x))))
< net 2 unsafe
do 3 check

# a key that does not hold
+ (relation R (x int) (y int))
+ (key R x)
+ (fact R 1 2)
+ (fact R 1 3)
< net 2 inconsistent
do 3 check

# a parenthesis that is never closed
+- (place P
< net 1 syntax
do 3 check

# a relation with the name of a connective
+ (relation and (x int))
< net 1 declaration
do 3 check

# an unknown place
+ (place P int)
+ (transition t (in P (1 #0)) (out Q (0)))
< net 2 unknown
do 3 check

# a row of tokens for the second time
+ (place P)
+ (token P 1)
+ (token P 2)
< net 3 duplicate
do 3 check

# a fact that is too long
+ (relation R (x int))
+ (fact R 1 2)
< net 2 arity
do 3 check

# a guard of two types
+ (place P int)
+ (transition t (in P (1 x)) (guard (= x "a")))
< net 2 type-clash
do 3 check

# a query variable that is not free
+ (query q ((x int)) (or))
< net 1 unbound
do 3 check

# a query that is true of all
+ (query q ((x int)) (= x x))
< net 1 unsafe
do 3 check

# no token
+ (place P)
+ (token P 0)
< net 2 count
do 3 check

# a sentence that is false
+ (always a (or))
< net 1 inconsistent
do 3 check

# as deep as parentheses may nest
+* 64 (
+* 64 )
< net 1 declaration
do 3 check

# deeper than parentheses may nest
+* 65 (
+* 65 )
< net 1 syntax
do 3 check

# many facts under a key
+ (relation R (a int) (b int) (c int) (d int) (e int) (f int))
+ (key R a)
+/ 300 (fact R % % % % % %)
< accepted
do 0 check

# as many bound variables as there may be
+ (place P int int int int int int int int int int int int int int int int)
+- (transition T (in P
+* 4  (1 a% b% c% d% e% f% g% h% i% j% k% l% m% n% o% p%)
+- ))
< accepted
do 0 check

# one more bound variable
+ (place P int int int int int int int int int int int int int int int int)
+- (transition T (in P
+* 4  (1 a% b% c% d% e% f% g% h% i% j% k% l% m% n% o% p%)
+x 2028312079206230206330206430206530206630206730206830206930206a30206b30206c30206d30206e30206f30207030292929
< net 2 limit
do 3 check

# a text of the greatest length
+ (place P text)
+- (token P 1 "
+* 4096 a
+- ")
< accepted
do 0 check

# a text that is too long
+ (place P text)
+- (token P 1 "
+* 4097 a
+- ")
< net 2 syntax
do 3 check

# an int that is too great
+ (place P int)
+ (token P 1 9223372036854775807)
+ (token P 1 9223372036854775808)
< net 3 syntax
do 3 check

# an int that is too small
+ (place P int)
+ (token P 1 -9223372036854775808)
+ (token P 1 -9223372036854775809)
< net 3 syntax
do 3 check

# an id that is too great
+ (place P id)
+ (token P 1 #4611686018427387903)
+ (token P 1 #4611686018427387904)
< net 3 syntax
do 3 check
"##;

#[test]
fn faults_are_told(rt: HostRuntime) -> Result<(), Fail> {
    play(&rt, rt.alloc(), FAULTS)
}
