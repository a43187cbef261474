// A source as another crate may have one: it is no `LentSource`, and counts on 640 words.

use crate::fresh::Fresh;
use crate::{LentSource, Source, build, over_root};
use colour::Entries;
use cube::Root;
use std::test::Fail;
use tape::{Tape, Word};
use tree::Sink;

#[derive(Drop)]
struct Another<L>(L);

impl<L: LentSource> Source for Another<L> {
    ghost leaves = { λ a. L.leaves a.0 };

    ghost suits = { λ a. L.suits a.0 };

    fn give<S: Sink>(
        &self,
        s: &[u8],
        words: &mut [Word],
        known: &mut Entries,
        t: Tape,
        root: Root,
        sink: &mut S,
    ) {
        let _last = words[639];
        LentSource::give(&self.0, s, words, known, t, root, sink);
    }

    ghost few = { λ a. L.few a.0 };
}

// The step room at depth 1 is 43 bytes, from either.
#[test]
fn builds_from_another_source(rt: HostRuntime) -> Result<(), Fail> {
    let room = [
        0, 29, 1, 1, 2, 1, 3, 5, 1, 0, 0, 0, 2, 3, 6, 0, 2, 3, 6, 1, 2, 2, 16, 3, 2, 16, 4, 3, 17,
        5, 6,
    ];
    let root = Root {
        x: 0,
        y: 0,
        z: 0,
        k: 2,
        d: 1,
    };
    let mut from = [0; 128];
    let mut fresh = [0; 128];
    let count = sheet::check(&room)?;
    assert_eq!(rt;
        over_root(&room, count, &Another(Fresh), root, &mut from)?,
        43
    );
    assert_eq!(rt; build(&room, 0, 0, 0, 2, 1, &mut fresh)?, 43);
    assert_eq!(rt; from, fresh);
    Ok(())
}
