// Who publishes and who reads, by the history that they have in common.
ghost use Rattle.std.specs.Prelude.{◌≡◌};

use published_registry::{Pass, Publisher, Receipt};
use std::marker::{Brand, PhantomData};
use std::sync::Wait;

// Which history it is. Each test picks its own.
pub trait Naming {
    ghost use Rattle.logbook.specs.Pages.{Book};

    ghost book: { Book };
}

impl Naming for Brand {
    ghost book = { record { number = 0; log_name = 0; cells_name = 0 } };
}

// A receipt, with the number of the policy that was in force then.
#[derive(Drop)]
pub struct Notice<N: Naming> {
    pub receipt: Receipt,
    pub epoch: u64,
    pub of: PhantomData<N>,
    pub ghost ours: { receipt.book ≡ N.book },
}

// Who publishes. Its handle is kept, so that it ends wherever it is let go.
pub struct Author<N: Naming, R: Wait + Drop> {
    pub publisher: Publisher,
    pub rt: R,
    pub of: PhantomData<N>,
    pub ghost ours: { publisher.book ≡ N.book },
}

impl<N: Naming, R: Wait + Drop> Drop for Author<N, R> {
    fn drop(self) {
        let Self {
            publisher,
            rt,
            of: _,
        } = self;
        drop(publisher.end(&rt));
    }
}

// Who reads.
#[derive(Drop)]
pub struct Reader<N: Naming> {
    pub pass: Pass,
    pub of: PhantomData<N>,
    pub ghost ours: { pass.book ≡ N.book },
}
