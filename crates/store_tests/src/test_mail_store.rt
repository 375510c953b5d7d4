//! Journals opened, and stores changed over a keeper, by the public calls of mail_store.
use mail_store::Store;
use mail_wire::{MemKeeper, Memory};
use std::alloc::Global;
use test_mail::{Case, failing, keeper_of_parts};

mod appending;
mod catching;
mod changes;
mod folders;
mod journals;
mod queue;
mod versions;

/// What is tried of a store and its keeper.
#[derive(Clone, Copy)]
pub enum Trial {
    Append(appending::Trial),
    CatchUp(catching::Trial),
    Change(changes::Trial),
    Folder(folders::Trial),
    Queue(queue::Trial),
    Read(journals::Held),
}

fn goes_well(store: &mut Store, keeper: &mut MemKeeper, alloc: Global, trial: Trial) -> bool {
    match trial {
        Trial::Append(trial) => appending::goes_well(store, keeper, alloc, trial),
        Trial::CatchUp(trial) => catching::goes_well(store, keeper, alloc, trial),
        Trial::Change(trial) => changes::goes_well(store, keeper, alloc, trial),
        Trial::Folder(trial) => folders::goes_well(store, keeper, alloc, trial),
        Trial::Queue(trial) => queue::goes_well(store, keeper, alloc, trial),
        Trial::Read(held) => journals::holds(store, keeper, held),
    }
}

/// The parts of a keeper's octets, the call of it that fails, and what goes well over its store, for messages of up to 1,000 octets.
pub struct Row {
    pub parts: &'static [&'static [u8]],
    pub call: u64,
    pub trial: Trial,
}

impl Case for Row {
    fn holds(&self, alloc: Global) -> Result<bool, Memory> {
        let mut keeper = keeper_of_parts(alloc, self.parts, failing(self.call))?;
        match Store::open(alloc, &mut keeper, 1000) {
            Ok(mut store) => Ok(goes_well(&mut store, &mut keeper, alloc, self.trial)),
            Err(_) => Ok(false),
        }
    }
}
