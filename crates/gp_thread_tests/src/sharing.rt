//! What may be moved to a thread. The test does nothing: that it
//! compiles shows what it says.
use gp_views::{Feed, Reader, Told};

fn is_send<T: Send>() {}

#[test]
fn feeds_readers_and_notes_are_moved() {
    is_send::<Feed>();
    is_send::<Reader>();
    is_send::<Told>();
}
