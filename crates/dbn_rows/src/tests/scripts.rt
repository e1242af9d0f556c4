//! Scripts: calls of the program one after the other, and what comes of them.
//!
//! Each line begins with a word. `# ..` begins anew, in an empty folder. These words add a line to
//!
//! | word | what |
//! |---|---|
//! | `+` | the net |
//! | `>` | the commands |
//! | `<` | what the next call is to write |
//! | `a`, `b` | the files |
//! | `A`, `B` | what the files are to hold |
//!
//! Behind such a word a letter stands for other pieces than a line, as `add_piece` says. `limit input N`,
//! `limit net N`, `limit file N` set a size. `do STATUS WORDS` makes a call. `held` compares the files. `again` makes a
//! store in an empty folder of what was written last, whose text is to be the same.

use crate::tests::pieces::add_piece;
use crate::tests::runs::{Crash, Given, SOUND, Sizes, WIDE, image, run};
use std::alloc::Global;
use std::process::Abort;
use std::str;
use std::test::Fail;

// At the end, with all that is held.
const NOW: Crash = Crash {
    moment: u64::MAX,
    len: u64::MAX,
    loose: 0,
};

// Where a script stands.
#[derive(Drop)]
struct Scene<'s> {
    shows: &'s str,
    sizes: Sizes,
    net: Vec<u8>,
    commands: Vec<u8>,
    wanted: Vec<u8>,
    a: Vec<u8>,
    b: Vec<u8>,
    wanted_a: Vec<u8>,
    wanted_b: Vec<u8>,
    written: String,
}

// An empty folder.
fn opening(alloc: Global, shows: &str) -> Scene<'_> {
    Scene {
        shows,
        sizes: WIDE,
        net: Vec::new(alloc),
        commands: Vec::new(alloc),
        wanted: Vec::new(alloc),
        a: Vec::new(alloc),
        b: Vec::new(alloc),
        wanted_a: Vec::new(alloc),
        wanted_b: Vec::new(alloc),
        written: String::new(alloc),
    }
}

impl Scene<'_> {
    // Adds a piece where its word says.
    fn add(&mut self, alloc: Global, word: &[u8], rest: &str) -> Result<(), Fail> {
        match word {
            [b'+', kind @ ..] => add_piece(alloc, &mut self.net, kind, rest),
            [b'>', kind @ ..] => add_piece(alloc, &mut self.commands, kind, rest),
            [b'<', kind @ ..] => add_piece(alloc, &mut self.wanted, kind, rest),
            [b'a', kind @ ..] => add_piece(alloc, &mut self.a, kind, rest),
            [b'b', kind @ ..] => add_piece(alloc, &mut self.b, kind, rest),
            [b'A', kind @ ..] => add_piece(alloc, &mut self.wanted_a, kind, rest),
            [b'B', kind @ ..] => add_piece(alloc, &mut self.wanted_b, kind, rest),
            _ => Err(Fail::new("no such line")),
        }
    }

    // Sets a size.
    fn limit(&mut self, rest: &str) -> Result<(), Fail> {
        let (which, most) = rest.split_once(' ').ok_or("no size")?;
        let most = most.parse::<u64>()?;
        match which.as_bytes() {
            b"input" => self.sizes.input = most,
            b"net" => self.sizes.net = most,
            _ => self.sizes.file = most,
        }
        Ok(())
    }

    // Makes a call of these words, which ends with this status.
    fn call(
        &mut self,
        rt: &impl Abort,
        alloc: Global,
        status: u8,
        words: &str,
    ) -> Result<(), Fail> {
        let given = Given {
            words,
            sizes: self.sizes,
            net: self.net.as_slice(),
            commands: self.commands.as_slice(),
            a: self.a.as_slice(),
            b: self.b.as_slice(),
        };
        let left = run(alloc, &given, &SOUND)?;
        let wanted = str::from_utf8(self.wanted.as_slice())?;
        assert_eq!(rt; left.written.as_str(), wanted, "{}, by {words}", self.shows);
        assert_eq!(rt; left.status, status, "{}, by {words}", self.shows);
        self.a = image(alloc, &left.a, NOW)?;
        self.b = image(alloc, &left.b, NOW)?;
        self.written = left.written;
        self.commands.clear();
        self.wanted.clear();
        Ok(())
    }

    // A store of the text that was written last has this text.
    fn write_again(&mut self, rt: &impl Abort, alloc: Global) -> Result<(), Fail> {
        self.net.clear();
        self.net
            .extend_from_slice(self.written.as_str().as_bytes())?;
        self.a.clear();
        self.b.clear();
        self.wanted.extend_from_slice(b"made\n")?;
        self.call(rt, alloc, 0, "new")?;
        self.wanted.extend_from_slice(self.net.as_slice())?;
        self.call(rt, alloc, 0, "dump")
    }

    // Compares the files.
    fn compare(&mut self, rt: &impl Abort) {
        assert_eq!(rt;
            self.a.as_slice(),
            self.wanted_a.as_slice(),
            "{}",
            self.shows
        );
        assert_eq!(rt;
            self.b.as_slice(),
            self.wanted_b.as_slice(),
            "{}",
            self.shows
        );
        self.wanted_a.clear();
        self.wanted_b.clear();
    }

    // Follows a line.
    fn follow(&mut self, rt: &impl Abort, alloc: Global, line: &str) -> Result<(), Fail> {
        let (word, rest) = line.split_once(' ').unwrap_or((line, ""));
        match word.as_bytes() {
            b"limit" => self.limit(rest),
            b"do" => {
                let (status, words) = rest.split_once(' ').unwrap_or((rest, ""));
                self.call(rt, alloc, status.parse::<u8>()?, words)
            }
            b"again" => self.write_again(rt, alloc),
            b"held" => {
                self.compare(rt);
                Ok(())
            }
            other => self.add(alloc, other, rest),
        }
    }
}

// Plays one scene.
fn play_one(rt: &impl Abort, alloc: Global, shows: &str, lines: &str) -> Result<(), Fail> {
    let mut scene = opening(alloc, shows);
    for line in lines.split('\n') {
        if !line.is_empty() {
            scene.follow(rt, alloc, line)?;
        }
    }
    Ok(())
}

/// Plays all scenes of a script.
pub(crate) fn play(rt: &impl Abort, alloc: Global, script: &str) -> Result<(), Fail> {
    for scene in script.split("\n# ") {
        if let Some((shows, lines)) = scene.split_once('\n') {
            play_one(rt, alloc, shows, lines)?;
        }
    }
    Ok(())
}
