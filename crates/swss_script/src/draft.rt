// A script while its lines are read.
ghost use Rattle.std.specs.Prelude.{◌≡◌, ◌≤◌, [], ◌∷◌, IfOk, OnOk, bytes_eq, length, map};
ghost use Rattle.std.specs.List.{position};
ghost use Rattle.swss_script.specs.Script.{Becomes, new_draft, ended, in_head, in_section, producer_named, draft_round_ended, script_at, section_begun, section_ended, round_settled, shown_in, with_capacity, with_fail, with_head, with_image, draft_with_line};
ghost use Rattle.swss_script.specs.declared.line.HeadLine.TheVariants as head;
ghost use Rattle.swss_script.specs.declared.parts.Act.TheVariants as act;

use crate::line::{HeadLine, Line};
use crate::{
    Act, Acts, Fail2, Fails, Producers, Round, RoundList, Script, Section, Sections, Show, Shows,
    Why, Writes,
};
use row_store::Rows;
use sai_types::{Caps, KINDS, Kind};
use std::alloc::Global;
use std::mem::{self, drop};
use swss_image::ImageFault;
use swss_types::{OutOfMemory, Text};
use table_schema::PortPlan;

/// The capacities of a chip, where the head sets none.
pub const DEFAULT_CAPS: Caps = Caps([
    256, 4094, 256, 256, 16384, 1024, 2048, 16384, 16384, 512, 16384, 65536,
]);

/// The most producers of a script.
const MOST_PRODUCERS: usize = 4;

/// The place that the next line stands in.
#[derive(Clone, Copy, Debug, PartialEq, Eq)]
pub enum Place {
    /// The head.
    Head,
    /// A section of the producer with this number.
    Section(u32),
    /// Behind a settle.
    Settled,
}

/// What the lines said so far.
#[derive(Debug, Drop)]
pub struct Draft {
    /// The script, with the rounds that ended.
    pub script: Script,
    /// Of each kind, whether the head set its capacity.
    pub kinds: [bool; KINDS],
    /// Whether the head set the image.
    pub image: bool,
    /// The place of the next line.
    pub place: Place,
    /// The sections of the round that did not end, but for one that did not end.
    pub sections: Sections,
    /// The acts of the section that did not end.
    pub acts: Acts,
    /// The shows of the round that did not end.
    pub shows: Shows,
    /// Whether the next line belongs to a block.
    pub block: bool,
}

impl Draft {
    /// Before the first line.
    pub fn new(alloc: Global) -> Result<Draft, OutOfMemory>
        ensures { IfOk result (λ draft. draft ≡ new_draft) }
    {
        Ok(Draft {
            script: Script {
                plan: PortPlan::new(alloc)?,
                caps: DEFAULT_CAPS,
                fails: Fails::new(alloc),
                image: Rows::new(alloc),
                producers: Producers::new(alloc),
                rounds: RoundList::new(alloc),
            },
            kinds: [false; KINDS],
            image: false,
            place: Place::Head,
            sections: Sections::new(alloc),
            acts: Acts::new(alloc),
            shows: Shows::new(alloc),
            block: false,
        })
    }

    /// Adds a line, which must be in its place.
    pub fn add(&mut self, alloc: Global, line: Line) -> Result<Result<(), Why>, OutOfMemory>
        requires { length self.old.script.producers ≤ 4 }
        ensures { IfOk result (λ answer. Becomes (draft_with_line self.old line) answer self.new) }
    {
        match line {
            Line::Blank => Ok(Ok(())),
            Line::Head(line) => self.add_to_head(line),
            Line::Producer(name) => self.begin_section_of(alloc, name),
            Line::Put(write) => self.add_act(Act::Write(write)),
            Line::Batch(Some(writes)) => self.add_writes(writes),
            Line::Batch(None) | Line::Block => Ok(Err(Why::BadJson)),
            Line::Restart => self.add_act(Act::Restart),
            Line::Settle => {
                self.settle(alloc)?;
                Ok(Ok(()))
            }
            Line::Shown(show) => self.add_show(show),
            Line::Other => Ok(Err(Why::BadWord)),
        }
    }

    /// Adds a line of the head.
    pub fn add_to_head(&mut self, line: Option<HeadLine>) -> Result<Result<(), Why>, OutOfMemory>
        ensures { IfOk result (λ answer. Becomes (in_head self.old.place self.old line) answer self.new) }
    {
        match (self.place, line) {
            (Place::Head, Some(HeadLine::Port(text))) => self.add_port(text),
            (Place::Head, Some(HeadLine::Chip(kind, most))) => Ok(self.set_capacity(kind, most)),
            (Place::Head, Some(HeadLine::Fail(fail))) => self.add_fail(fail),
            (Place::Head, Some(HeadLine::Image(image))) => Ok(self.set_image(image)),
            _ => Ok(Err(Why::BadHead)),
        }
    }

    /// Adds a port to the plan.
    fn add_port(&mut self, text: Text) -> Result<Result<(), Why>, OutOfMemory>
        ensures { IfOk result (λ answer. Becomes (with_head self.old (head.Port text)) answer self.new) }
    {
        match self.script.plan.put(text.bytes())? {
            Ok(()) => Ok(Ok(())),
            Err(fault) => Ok(Err(Why::BadPlan(fault))),
        }
    }

    /// Sets the capacity of a kind.
    fn set_capacity(&mut self, kind: Kind, most: u64) -> Result<(), Why>
        ensures { Becomes (with_capacity self.old kind most) result self.new }
    {
        let at = kind.index();
        if self.kinds[at] {
            return Err(Why::HeadTwice);
        }
        self.kinds[at] = true;
        self.script.caps.0[at] = most;
        Ok(())
    }

    /// Adds a failing chip call.
    fn add_fail(&mut self, fail: Fail2) -> Result<Result<(), Why>, OutOfMemory>
        ensures { IfOk result (λ answer. Becomes (with_fail self.old fail) answer self.new) }
    {
        if self.script.fails.has(fail.at) {
            return Ok(Err(Why::HeadTwice));
        }
        self.script.fails.push(fail)?;
        Ok(Ok(()))
    }

    /// Sets the rows that the service begins with.
    fn set_image(&mut self, image: Result<Rows, ImageFault>) -> Result<(), Why>
        ensures { Becomes (with_image self.old image) result self.new }
    {
        if self.image {
            return Err(Why::HeadTwice);
        }
        match image {
            Ok(rows) => {
                self.image = true;
                drop(mem::replace(&mut self.script.image, rows));
                Ok(())
            }
            Err(fault) => Err(Why::BadImage(fault)),
        }
    }

    /// Begins a section of a producer, by its name.
    fn begin_section_of(
        &mut self,
        alloc: Global,
        name: Text,
    ) -> Result<Result<(), Why>, OutOfMemory>
        requires { length self.old.script.producers ≤ 4 }
        ensures { IfOk result (λ answer. Becomes (producer_named self.old name (position (bytes_eq name) self.old.script.producers)) answer self.new) }
    {
        if let Some(at) = place_of(self.script.producers.items(), name.bytes()) {
            self.begin_section(alloc, at as u32 + 1)?;
            return Ok(Ok(()));
        }
        let count = self.script.producers.items().len();
        if count >= MOST_PRODUCERS {
            return Ok(Err(Why::TooManyProducers));
        }
        self.script.producers.push(name)?;
        self.begin_section(alloc, count as u32 + 1)?;
        Ok(Ok(()))
    }

    /// Begins a section of the producer with this number.
    fn begin_section(&mut self, alloc: Global, producer: u32) -> Result<(), OutOfMemory>
        ensures { OnOk result (self.new ≡ section_begun self.old producer) }
    {
        self.end(alloc)?;
        self.place = Place::Section(producer);
        Ok(())
    }

    /// Settles the round.
    fn settle(&mut self, alloc: Global) -> Result<(), OutOfMemory>
        ensures { OnOk result (self.new ≡ round_settled self.old) }
    {
        self.end(alloc)?;
        self.place = Place::Settled;
        Ok(())
    }

    /// Ends what is open: a section, or a round that was settled.
    fn end(&mut self, alloc: Global) -> Result<(), OutOfMemory>
        ensures { OnOk result (self.new ≡ ended self.old) }
    {
        match self.place {
            Place::Head => Ok(()),
            Place::Section(producer) => self.end_section(alloc, producer),
            Place::Settled => self.end_round(alloc),
        }
    }

    /// Ends a section of a producer.
    fn end_section(&mut self, alloc: Global, producer: u32) -> Result<(), OutOfMemory>
        ensures { OnOk result (self.new ≡ section_ended producer self.old) }
    {
        let mut acts = mem::replace(&mut self.acts, Acts::new(alloc));
        acts.shrink();
        self.sections.push(Section { producer, acts })?;
        Ok(())
    }

    /// Ends a round with its shows.
    fn end_round(&mut self, alloc: Global) -> Result<(), OutOfMemory>
        ensures { OnOk result (self.new ≡ draft_round_ended self.old) }
    {
        let sections = mem::replace(&mut self.sections, Sections::new(alloc));
        let shows = mem::replace(&mut self.shows, Shows::new(alloc));
        self.script.rounds.push(Round { sections, shows })?;
        Ok(())
    }

    /// Adds an act of the section's producer.
    fn add_act(&mut self, act: Act) -> Result<Result<(), Why>, OutOfMemory>
        ensures { IfOk result (λ answer. Becomes (in_section self.old.place self.old (act ∷ [])) answer self.new) }
    {
        match self.place {
            Place::Section(_) => {
                self.acts.push(act)?;
                Ok(Ok(()))
            }
            _ => Ok(Err(Why::BadWord)),
        }
    }

    /// Adds writes of the section's producer.
    fn add_writes(&mut self, writes: Writes) -> Result<Result<(), Why>, OutOfMemory>
        ensures { IfOk result (λ answer. Becomes (in_section self.old.place self.old (map act.Write writes)) answer self.new) }
    {
        match self.place {
            Place::Section(_) => {
                self.acts.push_writes(writes)?;
                Ok(Ok(()))
            }
            _ => Ok(Err(Why::BadWord)),
        }
    }

    /// Adds a show behind a settle.
    fn add_show(&mut self, show: Show) -> Result<Result<(), Why>, OutOfMemory>
        ensures { IfOk result (λ answer. Becomes (shown_in self.old.place self.old show) answer self.new) }
    {
        match self.place {
            Place::Settled => {
                self.shows.push(show)?;
                Ok(Ok(()))
            }
            _ => Ok(Err(Why::BadWord)),
        }
    }

    /// The script at its end. A settle is added where the last round is not settled.
    pub fn finish(mut self, alloc: Global) -> Result<Script, OutOfMemory>
        ensures { IfOk result (λ script. script ≡ script_at self.place self) }
    {
        match self.close(alloc) {
            Ok(()) => Ok(self.into_script()),
            Err(error) => {
                drop(self);
                Err(error)
            }
        }
    }

    /// Ends what is open, with a settle where the last round is not settled.
    fn close(&mut self, alloc: Global) -> Result<(), OutOfMemory>
        ensures { OnOk result (self.new.script ≡ script_at self.old.place self.old) }
    {
        if self.place != Place::Settled {
            self.settle(alloc)?;
        }
        self.end(alloc)
    }

    /// The script alone.
    fn into_script(self) -> Script
        ensures { result ≡ self.script }
    {
        let Draft {
            script,
            sections,
            acts,
            shows,
            ..
        } = self;
        drop(sections);
        drop(acts);
        drop(shows);
        script
    }
}

/// The place of a name among the names.
fn place_of(names: &[Text], name: &[u8]) -> Option<usize>
    ensures { result ≡ position (bytes_eq name.now) names.now }
{
    names.iter().position(|other| name == other.bytes())
}
