ghost use Rattle.std.specs.Prelude.{◌≡◌, IfSome};

use crate::looking::one_look;
use crate::naming::{Author, Naming, Notice, Reader};
use crate::opening::{opened, reload};
use crossbeam_channel::{Receiver, Sender, unbounded};
use published_registry::{Pass, Publisher, Receipt, make};
use std::alloc::Global;
use std::marker::{Brand, PhantomData};
use std::sync::Wait;
use std::test::Fail;
use std::thread::{Threads, join};

// The number of the last policy. The first one allows all, the next denies all, and so by turns.
const LAST: u64 = 100;

// Puts a policy in force that allows all or nothing.
fn put_in_force<R: Wait>(
    rt: &R,
    alloc: Global,
    publisher: &mut Publisher,
    allows: bool,
) -> Option<Receipt>
    ensures same { publisher.new.book ≡ publisher.old.book }
    ensures ours { IfSome result (λ receipt. receipt.book ≡ publisher.old.book) }
{
    let entry = reload(alloc, publisher, allows)?;
    publisher.commit(rt, entry).ok()
}

impl<N: Naming, R: Wait + Drop> Author<N, R> {
    // Puts the policy of that number in force, which allows where the number is odd, and sends its receipt.
    fn writes(&mut self, alloc: Global, out: &Sender<Notice<N>>, epoch: u64) -> bool {
        let receipt = put_in_force(&self.rt, alloc, &mut self.publisher, epoch % 2 == 1);
        let Some(receipt) = receipt else {
            return false;
        };
        let is_next = self.publisher.newest().epoch() == epoch;
        let notice = Notice {
            receipt,
            epoch,
            of: PhantomData,
        };
        is_next & out.send(&self.rt, notice).is_ok()
    }

    // Puts all policies in force but for the first. It comes back, since nobody gets a look once the publisher has ended.
    fn writes_all(self, alloc: Global, out: Sender<Notice<N>>) -> (Author<N, R>, bool) {
        let mut author = self;
        let mut written = true;
        for epoch in 2..LAST + 1 {
            written = written && author.writes(alloc, &out, epoch);
        }
        (author, written)
    }
}

impl<N: Naming> Reader<N> {
    // Learns the receipt and looks: the number of the policy, where it is at least that of the notice, and the policy allows
    // exactly where its number is odd. None where the pass gets no look.
    fn reads(self, notice: Notice<N>) -> Option<(Reader<N>, u64)> {
        let Reader { mut pass, of } = self;
        pass.learn(&notice.receipt);
        let (pass, look) = one_look(pass);
        let look = look?;
        if look.epoch < notice.epoch || look.allows != (look.epoch % 2 == 1) {
            return None;
        }
        Some((Reader { pass, of }, look.epoch))
    }

    // Reads all notices; the policy's number never falls.
    fn reads_all<R: Wait>(self, rt: &R, notices: Receiver<Notice<N>>) -> bool {
        let mut reader = self;
        let mut last = 1;
        for _ in 2..LAST + 1 {
            let Ok(notice) = notices.recv(rt) else {
                return false;
            };
            let Some((again, epoch)) = reader.reads(notice) else {
                return false;
            };
            if epoch < last {
                return false;
            }
            reader = again;
            last = epoch;
        }
        last == LAST
    }
}

// Whether it goes so with a publisher and a pass of one history.
fn both<N: Naming + Send + Sync + 'static, R: Threads + Wait + Sync>(
    rt: &R,
    alloc: Global,
    publisher: Publisher,
    pass: Pass,
) -> bool
    requires { (publisher.book ≡ N.book) × (pass.book ≡ N.book) }
{
    let author: Author<N, &R> = Author {
        publisher,
        rt,
        of: PhantomData,
    };
    let reader: Reader<N> = Reader {
        pass,
        of: PhantomData,
    };
    let Ok((out, notices)) = unbounded(alloc) else {
        return false;
    };
    let ((_author, written), read) = join(
        rt,
        move || author.writes_all(alloc, out),
        move || reader.reads_all(rt, notices),
    );
    written & read
}

#[test]
fn learnt_receipts(rt: HostRuntime) -> Result<(), Fail> {
    let alloc = rt.alloc();
    let registry = opened(alloc)?;
    let (publisher, mut passes) = make(&rt, alloc, registry, 1).ok().ok_or("nothing is made")?;
    match passes.pop() {
        Some(pass) => {
            assert!(rt; both::<Brand, _>(&rt, alloc, publisher, pass));
        }
        None => {
            drop(publisher.end(&rt));
            assert!(rt; false);
        }
    }
    Ok(())
}
