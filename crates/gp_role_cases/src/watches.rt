//! Watches over the values of a round.
use gp_cases::{Fault, Request, Subject, Words, message_of};
use gp_collide::Watch;
use std::alloc::Global;
use std::sync::Wait;
use std::thread::Threads;

/// A file has one watch at a time.
#[derive(Drop)]
pub struct Watches {
    watch: Option<Watch>,
}

impl Watches {
    pub fn new() -> Watches {
        Watches { watch: None }
    }

    // Takes the watch out, after it saw the message of the words.
    fn seen(
        &mut self,
        alloc: Global,
        request: Request<'_>,
        words: Words<'_>,
    ) -> Result<Watch, Fault> {
        let m = message_of(alloc, request.letters, words)?;
        let Some(mut watch) = self.watch.take() else {
            return Err(Fault::Unread);
        };
        watch.see(&m)?;
        Ok(watch)
    }
}

impl Subject for Watches {
    // Whether the watch has noticed a collision.
    fn answer<W: Threads + Wait + Sync>(
        &mut self,
        _threads: &W,
        alloc: Global,
        request: Request<'_>,
    ) -> Result<String, Fault> {
        let mut words = request.words();
        let watch = match words.name()? {
            "watch" => watch_of(alloc, words)?,
            "see" => self.seen(alloc, request, words)?,
            _ => return Err(Fault::Unread),
        };
        let word = if watch.clashed() { "clash" } else { "calm" };
        self.watch = Some(watch);
        Ok(String::from_str(alloc, word)?)
    }
}

fn watch_of(alloc: Global, mut words: Words<'_>) -> Result<Watch, Fault> {
    let epoch = words.number(b"epoch")?;
    let round = words.round(b"round")?;
    words.end()?;
    Ok(Watch::new(alloc, epoch, round)?)
}
