ghost use Rattle.std.specs.Prelude.{◌≡◌, ◌≤◌, [], ◌∷◌, ◌++◌, IfOk};

use crate::bounds::Bounds;
use crate::retold::retold;
use crate::tables::Tables;
use host_events::{Answer, Code, Entry, Journal, Kept, Order};
use probing::AppList;
use std::alloc::{AllocError, Global};
use std::marker::Model;

/// The host's state. All that it ever needs of memory is taken when it is opened.
#[derive(Drop)]
pub struct HostCore<C: Code> {
    pub(crate) journal: Vec<Entry>,
    pub(crate) bounds: Bounds,
    pub(crate) app: AppList,
    pub(crate) collects: bool,
    pub(crate) tables: Tables<C>,
}

impl<C: Code> Model for HostCore<C> {
    ghost use Rattle.std.specs.Vec.{vec_capacity};
    ghost use Rattle.host_core.specs.Core.{Core, IsKeptUp, fixed_by};

    ghost Value = { Core };

    ghost view = { λ host. record {
      fixed = fixed_by host.bounds host.app host.collects;
      journal = host.journal.items;
    } };

    ghost invariant = { λ host. IsKeptUp C.image (fixed_by host.bounds host.app host.collects)
        host.journal.items host.tables (vec_capacity host.journal) (vec_capacity host.tables.codes) };
}

impl<C: Code> HostCore<C> {
    ghost use Rattle.host_events.specs.Assemblies.{code_of};
    ghost use Rattle.host_events.specs.Reply.{IsReply};
    ghost use Rattle.host_events.specs.Steps.{entry_of};
    ghost use Rattle.host_core.specs.Accepted.{IsAccepted};
    ghost use Rattle.host_core.specs.Allowed.{IsAllowed};
    ghost use Rattle.host_core.specs.Bounds.{bounds_of};
    ghost use Rattle.host_events.specs.Rooms.{most_contexts};
    ghost use Rattle.host_core.specs.Core.{fixed_by};

    /// A host before its first event, with these image files. It collects contexts, or lets
    /// operations begin.
    pub fn open(
        alloc: Global,
        bounds: Bounds,
        app: AppList,
        collects: bool,
    ) -> Result<HostCore<C>, AllocError>
        requires made_up { bounds ≡ bounds_of bounds.shares }
        requires numbered { bounds.contexts ≤ most_contexts }
        ensures host { IfOk result (λ host.
            host ≡ record { fixed = fixed_by bounds app collects; journal = [] }) }
        ensures allowed { IfOk result (λ host. IsAllowed host.fixed host.journal) }
    {
        let journal = Vec::with_capacity(alloc, bounds.events as usize)?;
        let tables = Tables::new(alloc, &bounds)?;
        Ok(HostCore {
            journal,
            bounds,
            app,
            collects,
            tables,
        })
    }

    /// Puts the event with its reply at the end of the journal, and answers the reply, with where
    /// the code of the assembly comes from that it names. It takes no memory.
    pub fn apply(&mut self, thread: u32, order: Order<C>) -> Answer
    where
        C: Drop,
        requires { IsAccepted C.image self.old.fixed self.old.journal thread order }
        ensures entry { self.new ≡ record self.old {
          journal = self.old.journal ++ entry_of thread order.event result.reply ∷ [];
        } }
        ensures reply { IsReply self.old.fixed.files self.old.journal order.event result.reply }
        ensures allowed { IsAllowed self.new.fixed self.new.journal }
        ensures code { result.code ≡ code_of self.old.journal (entry_of thread order.event result.reply) }
    {
        let Order {
            event,
            again,
            code,
            room,
            copy,
        } = order;
        let reply = self.reply_to(&event, room.numbers);
        let told = retold(&reply, copy);
        self.tables.follow(again, code, &reply);
        let entry = Entry {
            thread,
            event,
            reply,
        };
        self.journal.push(entry).unwrap();
        let code = self.code_in(&told);
        Answer { reply: told, code }
    }

    /// All entries, the oldest first.
    pub fn into_journal(self) -> Journal
    where
        C: Drop,
        ensures journal { result ≡ self.journal }
        ensures allowed { IsAllowed self.fixed self.journal }
    {
        Journal::of(self.journal)
    }
}

impl<C: Code + Drop> Kept for HostCore<C> {
    ghost use Rattle.host_events.specs.Assemblies.{code_of};
    ghost use Rattle.host_core.specs.Accepted.{IsAccepted};
    ghost use Rattle.host_core.specs.Allowed.{Fixed, IsAllowed};

    type Order = Order<C>;

    type Answer = Answer;

    ghost Fixed = { Fixed };

    ghost fixed = { λ host. host.fixed };

    ghost journal = { λ host. host.journal };

    ghost Allows = { λ fixed journal. IsAllowed fixed journal };

    ghost Accepts = { λ fixed journal thread order. IsAccepted C.image fixed journal thread order };

    ghost code_of = { code_of };

    ghost few = { λ fixed journal allowed. allowed.few };

    fn keeps(&self) {
        let _entries = self.journal.as_slice();
    }

    fn step(&mut self, thread: u32, order: Order<C>) -> Answer {
        self.apply(thread, order)
    }
}
