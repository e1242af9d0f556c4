//! Demos.

use crate::tests::scripts::play;
use std::test::Fail;

const DEMOS: &str = r##"
# one command
< demo 1 committed 0 rolled-back 0 disabled 1 facts 10
do 0 demo --size 1

# forty commands
< demo 40 committed 24 rolled-back 0 disabled 16 facts 28
do 0 demo --size 40

# the number behind a sign
< demo 40 committed 24 rolled-back 0 disabled 16 facts 28
do 0 demo --size=40
"##;

#[test]
fn demos_are_run(rt: HostRuntime) -> Result<(), Fail> {
    play(&rt, rt.alloc(), DEMOS)
}
