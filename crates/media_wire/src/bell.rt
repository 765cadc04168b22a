//! A wait for datagrams that somebody else may end.

use libc::net as c;
use libc::types::pollfd;
use std::sync::atomic::{AtomicBool, Ordering};

/// How many sockets a wait looks at, at most.
const MOST: usize = 512;

/// Whether something came at one of these.
fn is_there(waited: &[pollfd]) -> bool {
    for one in waited {
        if one.revents != 0 {
            return true;
        }
    }
    false
}

/// Ends the wait of the one that listens: whoever changed what that one looks at rings.
pub struct Bell {
    /// A counter of the system's, `eventfd(2)`. Where it gave none nothing ends a wait but datagrams and time.
    counter: i32,
    /// Whether nobody rang since the last wait.
    silent: AtomicBool,
    /// Whether a datagram was there at the end of the last wait.
    found: AtomicBool,
}

impl Bell {
    /// Nobody listens yet.
    pub fn new() -> Bell {
        Bell {
            counter: c::eventfd(0, c::EFD_CLOEXEC | c::EFD_NONBLOCK),
            silent: AtomicBool::new(false),
            found: AtomicBool::new(false),
        }
    }

    /// Ends the wait that goes on, or the next one. Where somebody rang before since the last wait, it is one load.
    pub fn ring(&self) {
        if self.silent.load(Ordering::SeqCst) && self.silent.swap(false, Ordering::SeqCst) {
            libc::write(self.counter, &1u64.to_ne_bytes());
        }
    }

    /// Waits until a datagram is there at one of these descriptors, somebody rings, or so many milliseconds are over. Whoever
    /// looks at something after a wait misses no change of it: the next wait ends at once where one came after the look.
    pub fn wait(&self, sockets: &[i32], milliseconds: i32) {
        let none = pollfd {
            fd: self.counter,
            events: c::POLLIN,
            revents: 0,
        };
        let mut all = [none; MOST + 1];
        let count = sockets.len().min(MOST);
        for place in 0..count {
            all[place].fd = sockets[place];
        }
        c::poll(&mut all[..count + 1], milliseconds);
        if all[count].revents != 0 {
            libc::read(self.counter, &mut [0; 8]);
        }
        self.silent.store(true, Ordering::SeqCst);
        self.found.store(is_there(&all[..count]), Ordering::SeqCst);
    }

    /// Whether a datagram was there at the end of the last wait.
    pub fn has_found(&self) -> bool {
        self.found.load(Ordering::SeqCst)
    }
}

impl Drop for Bell {
    fn drop(self) {
        let Self {
            counter,
            silent: _,
            found: _,
        } = self;
        libc::close(counter);
    }
}
