// Filling an outbox, and reading what it holds.
ghost use Rattle.std.specs.Prelude.{◌≡◌, ◌<◌, [], ◌∷◌, ◌++◌, length, if◌then◌else◌, nat_lt};
ghost use Rattle.messages.specs.Posts.{posts};

use super::super::message::Message;
use super::{Outbox, Post};

impl Outbox {
    pub fn new() -> Outbox
        ensures { posts result ≡ [] }
    {
        Outbox {
            places: [Post::Air(Message::free(0)); 10],
            used: 0,
        }
    }

    pub fn one(post: Post) -> Outbox
        ensures { posts result ≡ post ∷ [] }
    {
        let mut outbox = Outbox::new();
        outbox.push(post);
        outbox
    }

    pub fn two(first: Post, second: Post) -> Outbox
        ensures { posts result ≡ first ∷ second ∷ [] }
    {
        let mut outbox = Outbox::one(first);
        outbox.push(second);
        outbox
    }

    pub fn three(first: Post, second: Post, third: Post) -> Outbox
        ensures { posts result ≡ first ∷ second ∷ third ∷ [] }
    {
        let mut outbox = Outbox::two(first, second);
        outbox.push(third);
        outbox
    }

    // One more at the end, and true; where ten are there already, nothing, and false, as a set's insert tells.
    pub fn push(&mut self, post: Post) -> bool
        ensures kept { result ≡ nat_lt (length (posts self.old)) 10 }
        ensures holds { posts self.new ≡ (if nat_lt (length (posts self.old)) 10 then posts self.old ++ post ∷ [] else posts self.old) }
    {
        if self.len() >= 10 {
            return false;
        }
        self.put(post);
        true
    }

    fn len(&self) -> usize
        ensures { result ≡ length (posts self.now) }
    {
        self.used
    }

    fn put(&mut self, post: Post)
        requires { length (posts self.old) < 10 }
        ensures { posts self.new ≡ posts self.old ++ post ∷ [] }
    {
        self.places[self.used] = post;
        self.used += 1;
    }

    // What it holds, in the order in which it was said.
    pub fn as_slice(&self) -> &[Post]
        ensures { result.now ≡ posts self.now }
    {
        &self.places[0..self.used]
    }
}
