//! What is to be bound, and how a bind goes on.
ghost use Rattle.std.specs.Prelude.{◌≡◌, IfOk, IsSome, Some};
ghost use Rattle.std.specs.Option.{option_map};
ghost use Rattle.std.specs.Arc.{arc_value};
ghost use Rattle.assembly_image.specs.Reading.{module_of};
ghost use Rattle.assembly_image.specs.Reading.FileReading.{Good};
ghost use Rattle.host_events.specs.declared.outcome.Outcome.TheVariants as outcomes;
ghost use Rattle.bind_flow.specs.declared.turn.Turn.TheVariants as turns;
ghost use Rattle.bind_flow.specs.Flow.{BringsCode, IsOrder, no_room};
ghost use Rattle.bind_flow.specs.Images.{reading_at};
ghost use Rattle.bind_flow.specs.State.{images_of, wanted_of};
ghost use Rattle.bind_flow.specs.Turns.{IsModule, IsReady, event_at, first_step};
ghost use Rattle.bind_flow.specs.Turns.{image_version, module_turn, reading_turn, served, turn_after};
ghost use Rattle.bind_flow.specs.Turns.{turn_answered, turn_default, turn_looked_up};
ghost use Rattle.bind_flow.specs.Turns.{turn_published, turn_with, version_told, wait_default, wait_image};

use crate::images::{ImageCode, ImageReading, Images};
use crate::turn::{Turn, Wait};
use assembly_image::AssemblyImage;
use assembly_name::{SimpleName, Version, accepts, same_name};
use cli_words::{CheckCode, FailedCheck};
use host_events::{AskStep, Candidate, CodeOf, Event, Numbers, Order, Outcome, Reply, Room, Text};
use std::alloc::{AllocError, Global};
use std::sync::Arc;

/// The platform's version, which serves whatever version is wanted.
const PLATFORM_VERSION: Version = Version {
    major: u16::MAX,
    minor: u16::MAX,
    build: u16::MAX,
    revision: u16::MAX,
};

/// The most bytes of an image.
const IMAGE_LIMIT: u32 = 4_194_304;

/// What is to be bound: a name in a context and the version that is wanted, among these images.
#[derive(Drop)]
pub struct Search {
    pub context: u32,
    pub name: SimpleName,
    pub version: Version,
    pub images: Arc<Images>,
}

impl Search {
    /// The order of the event that is due.
    pub fn order(&self, alloc: Global, wait: Wait) -> Result<Order<ImageCode>, AllocError>
        requires { IsReady (images_of self.now) wait }
        ensures event { IfOk result (λ order. order.event ≡ event_at (wanted_of self.now) wait) }
        ensures order { IfOk result (λ order. IsOrder (images_of self.now) order.event order) }
    {
        Ok(Order {
            event: self.event(alloc, wait)?,
            again: self.event(alloc, wait)?,
            code: self.code(wait)?,
            room: no_room(alloc),
            copy: no_room(alloc),
        })
    }

    fn event(&self, alloc: Global, wait: Wait) -> Result<Event, AllocError>
        ensures { IfOk result (λ event. event ≡ event_at (wanted_of self.now) wait) }
    {
        let name = self.name.share(alloc)?;
        match wait {
            Wait::Lookup => Ok(Event::Lookup {
                context: self.context,
                name,
                version: self.version,
            }),
            Wait::Ask(step) => Ok(Event::Ask {
                step,
                context: self.context,
                name,
            }),
            Wait::PublishDefault(image) => Ok(Event::Publish {
                context: 0,
                name,
                candidate: Candidate::Image(image),
            }),
            Wait::Publish(candidate) => Ok(Event::Publish {
                context: self.context,
                name,
                candidate,
            }),
            Wait::Share(assembly) => Ok(Event::Publish {
                context: self.context,
                name,
                candidate: Candidate::Assembly(assembly),
            }),
        }
    }

    /// The code that the order of the event that is due brings.
    fn code(&self, wait: Wait) -> Result<Option<ImageCode>, AllocError>
        requires { IsReady (images_of self.now) wait }
        ensures { IfOk result (λ code.
            BringsCode (images_of self.now) (event_at (wanted_of self.now) wait) code) }
    {
        match wait {
            Wait::PublishDefault(image) => Ok(Some(self.code_of(image, 0)?)),
            Wait::Publish(Candidate::Image(image)) => Ok(Some(self.code_of(image, self.context)?)),
            Wait::Lookup | Wait::Ask(_) | Wait::Publish(Candidate::Assembly(_)) | Wait::Share(_) =>
                Ok(None),
        }
    }

    /// The code of an image for a context.
    fn code_of(&self, image: u32, context: u32) -> Result<ImageCode, AllocError>
        requires { IsModule (images_of self.now) image }
        ensures image { IfOk result (λ code. code.image ≡ image) }
        ensures context { IfOk result (λ code. code.context ≡ context) }
        ensures shared { IfOk result (λ code. reading_at (images_of self.now) image
            ≡ Some (Good (module_of (arc_value code.shared)))) }
    {
        match self.images.reading(image) {
            Some(ImageReading::Good(shared)) => Ok(ImageCode {
                image,
                context,
                shared: Arc::try_clone(shared)?,
            }),
            _ => unreachable!(),
        }
    }

    /// Where the bind goes with the reply, and with where the code of the assembly comes from that
    /// it names.
    pub fn turn(
        &self,
        alloc: Global,
        wait: Wait,
        reply: &Reply,
        code: Option<CodeOf>,
    ) -> Result<Turn, AllocError>
        requires { IsSome (turn_with (wanted_of self.now) (images_of self.now) wait reply.now code) }
        ensures { IfOk result
            (λ turn. turn_with (wanted_of self.now) (images_of self.now) wait reply.now code ≡ Some turn) }
    {
        match wait {
            Wait::Lookup => self.looked_up(alloc, reply, code),
            Wait::Ask(step) => self.answered(alloc, step, reply, code),
            Wait::PublishDefault(_) => self.published_default(alloc, reply, code),
            Wait::Publish(_) | Wait::Share(_) => self.published(alloc, reply, code),
        }
    }

    /// What is bound already, if its version serves; else the first step is asked.
    fn looked_up(
        &self,
        alloc: Global,
        reply: &Reply,
        code: Option<CodeOf>,
    ) -> Result<Turn, AllocError>
        requires { IsSome (turn_looked_up (wanted_of self.now) (images_of self.now) reply.now code) }
        ensures { IfOk result
            (λ turn. turn_looked_up (wanted_of self.now) (images_of self.now) reply.now code ≡ Some turn) }
    {
        match reply {
            Reply::Miss => Ok(Turn::Asks(Wait::Ask(self.first_step()))),
            Reply::Hit(assembly) => Ok(Turn::Found(*assembly)),
            Reply::Low(assembly) => {
                let version = self.version_of(*assembly, code);
                Ok(Turn::Refused(Outcome::VersionLow(self.name.share(alloc)?, version)))
            }
            _ => unreachable!(),
        }
    }

    /// The first step that is given a candidate decides.
    fn answered(
        &self,
        alloc: Global,
        step: AskStep,
        reply: &Reply,
        code: Option<CodeOf>,
    ) -> Result<Turn, AllocError>
        requires { IsSome (turn_answered (wanted_of self.now) (images_of self.now) step reply.now code) }
        ensures { IfOk result (λ turn.
            turn_answered (wanted_of self.now) (images_of self.now) step reply.now code
            ≡ Some turn) }
    {
        match reply {
            Reply::Nothing => self.after(alloc, step),
            Reply::Image(image) => self.with_image(alloc, *image, self.wait_image(step, *image)),
            Reply::Foreign(assembly) => {
                let turn = Turn::Asks(Wait::Publish(Candidate::Assembly(*assembly)));
                self.if_serves(alloc, self.version_of(*assembly, code), turn)
            }
            _ => unreachable!(),
        }
    }

    /// What context 0 has now is published in the context.
    fn published_default(
        &self,
        alloc: Global,
        reply: &Reply,
        code: Option<CodeOf>,
    ) -> Result<Turn, AllocError>
        requires { IsSome (turn_default (wanted_of self.now) (images_of self.now) reply.now code) }
        ensures { IfOk result
            (λ turn. turn_default (wanted_of self.now) (images_of self.now) reply.now code ≡ Some turn) }
    {
        match reply {
            Reply::Bound(assembly) | Reply::Lost(assembly) => {
                let turn = Turn::Asks(Wait::Share(*assembly));
                self.if_serves(alloc, self.version_of(*assembly, code), turn)
            }
            _ => unreachable!(),
        }
    }

    /// What the context has under the name now; what was there before may have a version that is
    /// too low.
    fn published(
        &self,
        alloc: Global,
        reply: &Reply,
        code: Option<CodeOf>,
    ) -> Result<Turn, AllocError>
        requires { IsSome (turn_published (wanted_of self.now) (images_of self.now) reply.now code) }
        ensures { IfOk result
            (λ turn. turn_published (wanted_of self.now) (images_of self.now) reply.now code ≡ Some turn) }
    {
        match reply {
            Reply::Bound(assembly) | Reply::Shared(assembly) => Ok(Turn::Found(*assembly)),
            Reply::Lost(assembly) => {
                let version = self.version_of(*assembly, code);
                self.if_serves(alloc, version, Turn::Found(*assembly))
            }
            Reply::NotCollectible(assembly) => Ok(Turn::Refused(Outcome::NotCollectible(
                *assembly,
            ))),
            _ => unreachable!(),
        }
    }

    /// The turn, if the version serves.
    fn if_serves(&self, alloc: Global, version: Version, turn: Turn) -> Result<Turn, AllocError>
        ensures { IfOk result (λ made. made ≡ served (wanted_of self.now) turn version) }
    {
        if accepts(version, self.version) {
            return Ok(turn);
        }
        Ok(Turn::Refused(Outcome::VersionLow(self.name.share(alloc)?, version)))
    }

    /// Waits for the publication of an image, if it is one that has the name and whose version serves.
    fn with_image(&self, alloc: Global, image: u32, wait: Wait) -> Result<Turn, AllocError>
        requires { IsSome (reading_at (images_of self.now) image) }
        ensures { IfOk result (λ turn. option_map (reading_turn (wanted_of self.now) (turns.Asks wait))
            (reading_at (images_of self.now) image) ≡ Some turn) }
    {
        match self.images.reading(image) {
            Some(ImageReading::Absent) => Ok(refused_at(CheckCode::Absent, 0)),
            Some(ImageReading::TooLong) => Ok(refused_at(CheckCode::TooLong, IMAGE_LIMIT)),
            Some(ImageReading::Bad(failed)) => Ok(Turn::Refused(Outcome::BadImage(*failed))),
            Some(ImageReading::Good(shared)) => self.with_module(alloc, shared, Turn::Asks(wait)),
            None => unreachable!(),
        }
    }

    fn with_module(
        &self,
        alloc: Global,
        image: &AssemblyImage,
        turn: Turn,
    ) -> Result<Turn, AllocError>
        ensures { IfOk result (λ made. made ≡ module_turn (wanted_of self.now) turn (module_of image.now)) }
    {
        if !same_name(image.name(), &self.name) {
            return Ok(Turn::Refused(Outcome::NameMismatch(self.name.share(alloc)?)));
        }
        self.if_serves(alloc, image.version(), turn)
    }

    /// The step after one that found no candidate.
    fn after(&self, alloc: Global, step: AskStep) -> Result<Turn, AllocError>
        ensures { IfOk result (λ turn. turn ≡ turn_after (wanted_of self.now) step) }
    {
        match step {
            AskStep::Load => Ok(Turn::Asks(Wait::Ask(AskStep::Default))),
            AskStep::Default => Ok(Turn::Asks(Wait::Ask(AskStep::Resolving))),
            AskStep::Resolving => Ok(Turn::Asks(Wait::Ask(AskStep::Resolve))),
            AskStep::Resolve => Ok(Turn::Refused(Outcome::NotFound(self.name.share(alloc)?))),
        }
    }

    /// The first step: context 0 has no Load step.
    fn first_step(&self) -> AskStep
        ensures { result ≡ first_step self.now.context }
    {
        if self.context == 0 {
            AskStep::Default
        } else {
            AskStep::Load
        }
    }

    /// Where an image that a step found is published first.
    fn wait_image(&self, step: AskStep, image: u32) -> Wait
        ensures { result ≡ wait_image (wanted_of self.now) step image }
    {
        match step {
            AskStep::Default => self.wait_default(image),
            AskStep::Load | AskStep::Resolving | AskStep::Resolve => Wait::Publish(Candidate::Image(
                image,
            )),
        }
    }

    fn wait_default(&self, image: u32) -> Wait
        ensures { result ≡ wait_default (wanted_of self.now) image }
    {
        if self.context == 0 {
            Wait::Publish(Candidate::Image(image))
        } else {
            Wait::PublishDefault(image)
        }
    }

    /// The version of an assembly, by where its code comes from; the platform's for 0.
    fn version_of(&self, assembly: u32, code: Option<CodeOf>) -> Version
        requires { IsSome (version_told (images_of self.now) assembly code) }
        ensures { version_told (images_of self.now) assembly code ≡ Some result }
    {
        if assembly == 0 {
            return PLATFORM_VERSION;
        }
        match code {
            Some(from) => self.version_of_image(from.image),
            None => unreachable!(),
        }
    }

    fn version_of_image(&self, image: u32) -> Version
        requires { IsModule (images_of self.now) image }
        ensures { image_version (images_of self.now) image ≡ Some result }
    {
        match self.images.reading(image) {
            Some(ImageReading::Good(shared)) => shared.version(),
            _ => unreachable!(),
        }
    }
}

/// The refusal of a file for this check.
fn refused_at(code: CheckCode, at: u32) -> Turn
    ensures { result ≡ turns.Refused (outcomes.BadImage (record { code = code; at = at })) }
{
    Turn::Refused(Outcome::BadImage(FailedCheck { code, at }))
}

/// No room for a list or a text.
fn no_room(alloc: Global) -> Room
    ensures { result ≡ no_room }
{
    Room {
        numbers: Numbers::of(Vec::new(alloc)),
        first: Text::of(Vec::new(alloc)),
        second: Text::of(Vec::new(alloc)),
        third: Text::of(Vec::new(alloc)),
    }
}
