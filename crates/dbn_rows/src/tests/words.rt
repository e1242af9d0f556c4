//! Words that name no verb.

use crate::tests::scripts::play;
use std::test::Fail;

const WRONG_WORDS: &str = r##"
# no words
<$ usage
do 2

# words that name no verb
<$ usage
do 2 run --every 0

# words that name no verb
<$ usage
do 2 try now

# words that name no verb
<$ usage
do 2 help

# words that name no verb
<$ usage
do 2 --help

# words that name no verb
<$ usage
do 2 run --every

# words that name no verb
<$ usage
do 2 run --every=

# words that name no verb
<$ usage
do 2 run --every 01

# words that name no verb
<$ usage
do 2 run --every +1

# words that name no verb
<$ usage
do 2 run --every 1 1

# words that name no verb
<$ usage
do 2 run --every 1000000001

# words that name no verb
<$ usage
do 2 run --every=0

# words that name no verb
<$ usage
do 2 run --size 1

# words that name no verb
<$ usage
do 2 demo --size 0

# words that name no verb
<$ usage
do 2 demo --size 1000001

# words that name no verb
<$ usage
do 2 demo --every 1

# words that name no verb
<$ usage
do 2 demo 1

# words that name no verb
<$ usage
do 2 check check

# words that name no verb
<$ usage
do 2 new --every 1

# words that name no verb
<$ usage
do 2 CHECK

# words that name no verb
<$ usage
do 2 dump --size 1

# words that name no verb
<$ usage
do 2 run -e 1

# words that name no verb
<$ usage
do 2 run --every 99999999999999999999
"##;

#[test]
fn wrong_words_get_the_usage_line(rt: HostRuntime) -> Result<(), Fail> {
    play(&rt, rt.alloc(), WRONG_WORDS)
}
