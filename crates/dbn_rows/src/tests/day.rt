//! A day's work on forty tickets, with a checkpoint behind every 25 firings.

use crate::tests::scripts::play;
use std::test::Fail;

const DAY: &str = r##"
# forty tickets
+$ tickets
+ (fact Emp "Ann")
+ (fact Emp "Bob")
+ (fact Emp "Éva")
+ (token New 42 "job")
< made
do 0 new
>/ 40 fire open "job"
> fire assign #0 "Ann"
> fire close #0 "Ann"
> fire assign #1 "Bob"
> fire close #1 "Bob"
> fire assign #2 "Éva"
> fire close #2 "Éva"
> fire assign #3 "Ann"
> fire close #3 "Ann"
> fire assign #4 "Bob"
> fire close #4 "Bob"
> fire assign #5 "Éva"
> fire close #5 "Éva"
> fire assign #6 "Ann"
> fire close #6 "Ann"
> fire assign #7 "Bob"
> fire close #7 "Bob"
> fire assign #8 "Éva"
> fire close #8 "Éva"
> fire assign #9 "Ann"
> fire close #9 "Ann"
> fire assign #10 "Bob"
> fire close #10 "Bob"
> fire assign #11 "Éva"
> fire close #11 "Éva"
> fire assign #12 "Ann"
> fire close #12 "Ann"
> fire assign #13 "Bob"
> fire close #13 "Bob"
> fire assign #14 "Éva"
> fire close #14 "Éva"
> fire assign #15 "Ann"
> fire close #15 "Ann"
> fire assign #16 "Bob"
> fire close #16 "Bob"
> fire assign #17 "Éva"
> fire close #17 "Éva"
> fire assign #18 "Ann"
> fire close #18 "Ann"
> fire assign #19 "Bob"
> fire close #19 "Bob"
> fire assign #20 "Éva"
> fire close #20 "Éva"
> fire assign #21 "Ann"
> fire close #21 "Ann"
> fire assign #22 "Bob"
> fire close #22 "Bob"
> fire assign #23 "Éva"
> fire close #23 "Éva"
> fire assign #24 "Ann"
> fire close #24 "Ann"
> fire assign #25 "Bob"
> fire close #25 "Bob"
> fire assign #26 "Éva"
> fire close #26 "Éva"
> fire assign #27 "Ann"
> fire close #27 "Ann"
> fire assign #28 "Bob"
> fire close #28 "Bob"
> fire assign #29 "Éva"
> fire close #29 "Éva"
> fire assign #30 "Ann"
> fire close #30 "Ann"
> fire assign #31 "Bob"
> fire close #31 "Bob"
> fire assign #32 "Éva"
> fire close #32 "Éva"
> fire assign #33 "Ann"
> fire close #33 "Ann"
> fire assign #34 "Bob"
> fire close #34 "Bob"
> fire assign #35 "Éva"
> fire close #35 "Éva"
> fire assign #36 "Ann"
> fire close #36 "Ann"
> fire assign #37 "Bob"
> fire close #37 "Bob"
> fire assign #38 "Éva"
> fire close #38 "Éva"
> fire assign #39 "Ann"
> fire close #39 "Ann"
< committed 1 n=#0
< committed 2 n=#1
< committed 3 n=#2
< committed 4 n=#3
< committed 5 n=#4
< committed 6 n=#5
< committed 7 n=#6
< committed 8 n=#7
< committed 9 n=#8
< committed 10 n=#9
< committed 11 n=#10
< committed 12 n=#11
< committed 13 n=#12
< committed 14 n=#13
< committed 15 n=#14
< committed 16 n=#15
< committed 17 n=#16
< committed 18 n=#17
< committed 19 n=#18
< committed 20 n=#19
< committed 21 n=#20
< committed 22 n=#21
< committed 23 n=#22
< committed 24 n=#23
< committed 25 n=#24
< committed 26 n=#25
< committed 27 n=#26
< committed 28 n=#27
< committed 29 n=#28
< committed 30 n=#29
< committed 31 n=#30
< committed 32 n=#31
< committed 33 n=#32
< committed 34 n=#33
< committed 35 n=#34
< committed 36 n=#35
< committed 37 n=#36
< committed 38 n=#37
< committed 39 n=#38
< committed 40 n=#39
< committed 41
< committed 42
< committed 43
< committed 44
< committed 45
< committed 46
< committed 47
< committed 48
< committed 49
< committed 50
< committed 51
< committed 52
< committed 53
< committed 54
< committed 55
< committed 56
< committed 57
< committed 58
< committed 59
< committed 60
< committed 61
< committed 62
< committed 63
< committed 64
< committed 65
< committed 66
< committed 67
< committed 68
< committed 69
< committed 70
< committed 71
< committed 72
< committed 73
< committed 74
< committed 75
< committed 76
< committed 77
< committed 78
< committed 79
< committed 80
< committed 81
< committed 82
< committed 83
< committed 84
< committed 85
< committed 86
< committed 87
< committed 88
< committed 89
< committed 90
< committed 91
< committed 92
< committed 93
< committed 94
< committed 95
< committed 96
< committed 97
< committed 98
< committed 99
< committed 100
< committed 101
< committed 102
< committed 103
< committed 104
< committed 105
< committed 106
< committed 107
< committed 108
< committed 109
< committed 110
< committed 111
< committed 112
< committed 113
< committed 114
< committed 115
< committed 116
< committed 117
< committed 118
< committed 119
< committed 120
do 0 run --every 25
Ax db 44424e32 0000000000000005 0000000000000064 0000000000000028 00000883
A$ tickets
A (fact Emp "Ann")
A (fact Emp "Bob")
A (fact Emp "Éva")
A/ 40 (fact Ticket #% "job")
A (token New 2 "job")
A (token Wait 1 #30)
A (token Wait 1 #31)
A (token Wait 1 #32)
A (token Wait 1 #33)
A (token Wait 1 #34)
A (token Wait 1 #35)
A (token Wait 1 #36)
A (token Wait 1 #37)
A (token Wait 1 #38)
A (token Wait 1 #39)
Ax db 00000013 0001000103000000000000001e020003416e6e
Ax db 00000013 0001000303000000000000001e020003416e6e
Ax db 00000013 0001000103000000000000001f020003426f62
Ax db 00000013 0001000303000000000000001f020003426f62
Ax db 00000014 00010001030000000000000020020004c3897661
Ax db 00000014 00010003030000000000000020020004c3897661
Ax db 00000013 00010001030000000000000021020003416e6e
Ax db 00000013 00010003030000000000000021020003416e6e
Ax db 00000013 00010001030000000000000022020003426f62
Ax db 00000013 00010003030000000000000022020003426f62
Ax db 00000014 00010001030000000000000023020004c3897661
Ax db 00000014 00010003030000000000000023020004c3897661
Ax db 00000013 00010001030000000000000024020003416e6e
Ax db 00000013 00010003030000000000000024020003416e6e
Ax db 00000013 00010001030000000000000025020003426f62
Ax db 00000013 00010003030000000000000025020003426f62
Ax db 00000014 00010001030000000000000026020004c3897661
Ax db 00000014 00010003030000000000000026020004c3897661
Ax db 00000013 00010001030000000000000027020003416e6e
Ax db 00000013 00010003030000000000000027020003416e6e
Ax 00
Bx db 44424e32 0000000000000004 000000000000004b 0000000000000028 00000998
B$ tickets
B (fact Emp "Ann")
B (fact Emp "Bob")
B (fact Emp "Éva")
B/ 40 (fact Ticket #% "job")
B (fact Resp #17 "Éva")
B (token New 2 "job")
B (token Wait 1 #18)
B (token Wait 1 #19)
B (token Wait 1 #20)
B (token Wait 1 #21)
B (token Wait 1 #22)
B (token Wait 1 #23)
B (token Wait 1 #24)
B (token Wait 1 #25)
B (token Wait 1 #26)
B (token Wait 1 #27)
B (token Wait 1 #28)
B (token Wait 1 #29)
B (token Wait 1 #30)
B (token Wait 1 #31)
B (token Wait 1 #32)
B (token Wait 1 #33)
B (token Wait 1 #34)
B (token Wait 1 #35)
B (token Wait 1 #36)
B (token Wait 1 #37)
B (token Wait 1 #38)
B (token Wait 1 #39)
B (token Work 1 #17 "Éva")
Bx db 00000014 00010003030000000000000011020004c3897661
Bx db 00000013 00010001030000000000000012020003416e6e
Bx db 00000013 00010003030000000000000012020003416e6e
Bx db 00000013 00010001030000000000000013020003426f62
Bx db 00000013 00010003030000000000000013020003426f62
Bx db 00000014 00010001030000000000000014020004c3897661
Bx db 00000014 00010003030000000000000014020004c3897661
Bx db 00000013 00010001030000000000000015020003416e6e
Bx db 00000013 00010003030000000000000015020003416e6e
Bx db 00000013 00010001030000000000000016020003426f62
Bx db 00000013 00010003030000000000000016020003426f62
Bx db 00000014 00010001030000000000000017020004c3897661
Bx db 00000014 00010003030000000000000017020004c3897661
Bx db 00000013 00010001030000000000000018020003416e6e
Bx db 00000013 00010003030000000000000018020003416e6e
Bx db 00000013 00010001030000000000000019020003426f62
Bx db 00000013 00010003030000000000000019020003426f62
Bx db 00000014 0001000103000000000000001a020004c3897661
Bx db 00000014 0001000303000000000000001a020004c3897661
Bx db 00000013 0001000103000000000000001b020003416e6e
Bx db 00000013 0001000303000000000000001b020003416e6e
Bx db 00000013 0001000103000000000000001c020003426f62
Bx db 00000013 0001000303000000000000001c020003426f62
Bx db 00000014 0001000103000000000000001d020004c3897661
Bx db 00000014 0001000303000000000000001d020004c3897661
Bx 00
held
> facts Resp
> bindings open
> facts Ticket
< facts 0
< row d="job"
< bindings 1
</ 40 row #% "job"
< facts 40
do 0 run
<$ tickets
< (fact Emp "Ann")
< (fact Emp "Bob")
< (fact Emp "Éva")
</ 40 (fact Ticket #% "job")
< (token New 2 "job")
do 0 dump
again
> facts Resp
> bindings open
> facts Ticket
< facts 0
< row d="job"
< bindings 1
</ 40 row #% "job"
< facts 40
do 0 run
"##;

#[test]
fn a_day_is_worked(rt: HostRuntime) -> Result<(), Fail> {
    play(&rt, rt.alloc(), DAY)
}
