//! Lines of commands: their tokens, their faults and their lengths.

use crate::tests::scripts::play;
use std::test::Fail;

const LINES: &str = r##"
# blanks and comments have no reply
+$ one-token
>x 200a
>x 0920090a
> ; fire go
>x 20093b0a
> ;
>
>x 2066697265200920676f090a
< committed 1
do 0 try

# no command
+$ one-token
> launch
> fire
> fire go 1 go
> marking
> marking P P
> facts 1
> bindings "go"
> checkpoint
> Fire go
> fire 7
> fire go"
> fire go 007
> fire go -0
> fire go #01
> fire go "a
> fire go "\a"
< error line
< error line
< error line
< error line
< error line
< error line
< error line
< error line
< error line
< error line
< error line
< error line
< error line
< error line
< error line
< error line
do 0 try

# no such name
+$ one-token
> fire P
> fire stop 1 "a" #2
> bindings stop
> marking go
> facts P
< error unknown P
< error unknown stop
< error unknown stop
< error unknown go
< error unknown P
do 0 try

# values of another shape
+$ one-token
+ (place Q int)
+ (transition two (in Q (1 x)))
+ (token Q 1 7)
> fire go 1
> fire two
> fire two "7"
> fire two #7
> fire two 7 7
> fire two 8
> fire two 7
< error shape
< error shape
< error shape
< error shape
< error shape
< refused disabled
< committed 1
do 0 try

# a text with a blank
+$ tickets
+ (token New 1 "a b")
> fire open "a"x
> fire open "a b"x
> fire open "a b"
< error line
< error line
< committed 1 n=#0
do 0 try

# a text with a semicolon, a quote and a backslash
+$ tickets
+ (token New 1 "; \"\\")
> bindings open
> fire open "; \"\\" ;
> fire open "; \"\\"
< row d="; \"\\"
< bindings 1
< error line
< committed 1 n=#0
do 0 try

# no group
+$ one-token
> group
> group go ;
> group ; go
> group go ; ; go
> group go;
> group go ;go
< error line
< error line
< error line
< error line
< error line
< error line
do 0 try

# members of a group
+$ two-tokens
> group go
> group go ; go
> group go ; stop
> group stop ; go 7
> group go 7 ; go
>x 67726f7570200920676f090a
< committed 1
< group 1
< member 2 refused disabled
< error unknown stop
< error unknown stop
< error shape
< committed 2
< group 1
do 0 try

# a group of more than there are tokens changes nothing
+$ two-tokens
> group go ; go ; go
> marking P
> group go ; go
> marking P
< member 3 refused disabled
< row 2
< marking 1
< committed 1
< committed 2
< group 2
< marking 0
do 0 try

# refused members
+$ asked
> group note 1 "a" ; refer 1 #5
> group refer 1 #4 ; note 2 "b" ; refer 1 #0
> marking Ref
> marking Got
< member 2 refused id
< committed 1
< committed 2
< committed 3
< group 3
< row 1 #0
< row 2 #4
< marking 2
< row 1 2 "b"
< marking 1
do 0 try

# a member above the count
+$ full
> group up
> group up ; up
< member 1 refused count P
< member 1 refused count P
do 0 try

# members without ids left
+$ tickets
+ (token New 2 "a")
+ (token Wait 1 #4611686018427387902)
> group open "a" ; open "a"
> group open "a"
< member 2 refused fresh-end
< committed 1 n=#4611686018427387903
< group 1
do 0 try

# names in commands
+$ one-token
>x 6669726520
>* 64 n
>
>x 6669726520
>* 65 n
>
<x 6572726f7220756e6b6e6f776e20
<* 64 n
<
< error line
do 0 try

# lines that end with a carriage return
+$ tickets
+ (token New 1 "a")
>x 0d0a
>x 3b206e6f74650d0a
>x 66697265206e6f70650d0a
>x 6d61726b696e6720456d700d0a
>x 66697265206f70656e2023300d0a
>x 66697265206f70656e2022612220780d0a
>x 6c61756e63680d0a
>* 65537 x
>x 0d0a
>- fire open "a"
< error unknown nope
< error unknown Emp
< error shape
< error line
< error line
< error long
< committed 1 n=#0
do 0 try

# a line of the greatest length
+$ one-token
>_ 65536
>
>- fire go
< committed 1
do 0 try

# a line that is too long
+$ one-token
>_ 65537
>
>- fire go
< error long
< committed 1
do 0 try

# a line of the greatest length with a carriage return
+$ one-token
>_ 65535
>x 0d0a
>- fire go
< committed 1
do 0 try

# a line that is too long with its carriage return
+$ one-token
>_ 65536
>x 0d0a
>- fire go
< error long
< committed 1
do 0 try

# a long comment
+$ one-token
>- ;
>_ 65536
< error long
do 0 try

# as many members as a group can have
+$ one-token
>- group
>* 4095  go ;
>x 20676f0a
< member 2 refused disabled
do 0 try

# more members than a group can have
+$ one-token
>- group
>* 4096  go ;
>x 20676f0a
< error line
do 0 try
"##;

#[test]
fn lines_are_read(rt: HostRuntime) -> Result<(), Fail> {
    play(&rt, rt.alloc(), LINES)
}
