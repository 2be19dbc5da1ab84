//! Regions, and the controlled objects in them (7.6.1).
ghost use Rattle.std.specs.Prelude.{◌≡◌, ◌<◌, IfOk, OnOk};
ghost use Rattle.std.specs.List.{list_all};
ghost use Rattle.trace_text.specs.Laws.{has, is_front_of};
ghost use Rattle.trace_laws.specs.Regions.{no_leavings, leavings_in, leavings_after};
ghost use Rattle.trace_laws.specs.Regions.{objects_in, finals_in, is_open, is_next_final_in};
ghost use Rattle.trace_laws.specs.Regions.{is_registered, is_next_final_of, is_left_rightly};
ghost use Rattle.trace_laws.specs.Room.{HasRoom};

use ann_base::NoMemory;
use std::alloc::Global;
use trace_text::Event;

/// An object was initialized in a region.
#[derive(Clone, Copy, PartialEq, Eq)]
pub struct Registration {
    pub object: u32,
    pub region: u32,
}

/// What `init`, `final`, `leave` and `left` lines named, the last first.
#[derive(Drop)]
pub struct Regions {
    pub inits: Vec<Registration>,
    pub finals: Vec<u32>,
    pub leaves: Vec<u32>,
    pub lefts: Vec<u32>,
    pub alloc: Global,
}

fn has(numbers: &[u32], number: u32) -> bool
    ensures { result ≡ has number numbers.now }
{
    numbers.iter().any(|other| number == *other)
}

// The objects of a region, the last first.
fn objects_in(alloc: Global, region: u32, inits: &[Registration]) -> Result<Vec<u32>, NoMemory>
    ensures { IfOk result (λ objects. objects.items ≡ objects_in region inits.now) }
{
    let mut objects = Vec::new(alloc);
    for init in inits {
        if region == init.region {
            objects.push(init.object)?;
        }
    }
    Ok(objects)
}

// The objects of these that were finalized, the first first.
fn finals_in(alloc: Global, objects: &[u32], finals: &[u32]) -> Result<Vec<u32>, NoMemory>
    ensures { IfOk result (λ kept. kept.items ≡ finals_in objects.now finals.now) }
{
    let mut kept = Vec::new(alloc);
    let mut place = finals.len();
    while 0 < place {
        place -= 1;
        if has(objects, finals[place]) {
            kept.push(finals[place])?;
        }
    }
    Ok(kept)
}

fn is_front_of(front: &[u32], numbers: &[u32]) -> bool
    ensures { result ≡ is_front_of front.now numbers.now }
{
    numbers.starts_with(front)
}

impl Regions {
    /// No lines.
    pub fn new(alloc: Global) -> Regions
        ensures { leavings_in result ≡ no_leavings }
    {
        Regions {
            inits: Vec::new(alloc),
            finals: Vec::new(alloc),
            leaves: Vec::new(alloc),
            lefts: Vec::new(alloc),
            alloc,
        }
    }

    // Its leaving began and did not end.
    fn is_open(&self, region: u32) -> bool
        ensures { result ≡ is_open (leavings_in self.now) region }
    {
        has(self.leaves.as_slice(), region) && !has(self.lefts.as_slice(), region)
    }

    fn is_registered(&self, object: u32) -> bool
        ensures { result ≡ is_registered (leavings_in self.now) object }
    {
        self.inits.iter().any(|init| object == init.object)
    }

    // The object is the next of the region to be finalized.
    fn is_next_final(&self, object: u32, region: u32) -> Result<bool, NoMemory>
        ensures { IfOk result
            (λ is_next. is_next ≡ is_next_final_in (leavings_in self.now) object region) }
    {
        if !self.is_open(region) {
            return Ok(false);
        }
        let objects = objects_in(self.alloc, region, self.inits.as_slice())?;
        let mut finals = finals_in(self.alloc, objects.as_slice(), self.finals.as_slice())?;
        finals.push(object)?;
        Ok(is_front_of(finals.as_slice(), objects.as_slice()))
    }

    // The object is the next to be finalized, in each of its regions.
    fn is_next_in_each(&self, object: u32) -> Result<bool, NoMemory>
        ensures { IfOk result
            (λ is_next.
            is_next
            ≡ list_all (is_next_final_of (leavings_in self.now) object) self.now.inits.items) }
    {
        for init in &self.inits {
            if object == init.object && !self.is_next_final(object, init.region)? {
                return Ok(false);
            }
        }
        Ok(true)
    }

    // All objects of the region were finalized, in the reverse of their order.
    fn are_finals_done(&self, region: u32) -> Result<bool, NoMemory>
        ensures { IfOk result
            (λ are_done.
            are_done
            ≡ is_front_of (objects_in region self.now.inits.items)
            (finals_in (objects_in region self.now.inits.items) self.now.finals.items)) }
    {
        let objects = objects_in(self.alloc, region, self.inits.as_slice())?;
        let finals = finals_in(self.alloc, objects.as_slice(), self.finals.as_slice())?;
        Ok(is_front_of(objects.as_slice(), finals.as_slice()))
    }

    /// Whether a line is as the law of leaving says.
    pub fn is_left_rightly(&self, event: &Event) -> Result<bool, NoMemory>
        ensures { IfOk result
            (λ is_right. is_right ≡ is_left_rightly (leavings_in self.now) event.now) }
    {
        match event {
            Event::Leave { region, .. } => Ok(!has(self.leaves.as_slice(), region.0)),
            Event::Left { region, .. } => {
                if !self.is_open(region.0) {
                    return Ok(false);
                }
                self.are_finals_done(region.0)
            }
            Event::Init { object, region, .. } => {
                Ok(!has(self.leaves.as_slice(), region.0) && !has(self.finals.as_slice(), *object))
            }
            Event::Final { object, .. } => {
                if !self.is_registered(*object) {
                    return Ok(false);
                }
                self.is_next_in_each(*object)
            }
            Event::Replace { object, .. } => {
                Ok(self.is_registered(*object) && !has(self.finals.as_slice(), *object))
            }
            _ => Ok(true),
        }
    }

    /// Makes room for one line more.
    pub fn reserve(&mut self) -> Result<(), NoMemory>
        ensures room { OnOk result (HasRoom self.new) }
        ensures same { leavings_in self.new ≡ leavings_in self.old }
    {
        self.inits.reserve(1)?;
        self.finals.reserve(1)?;
        self.leaves.reserve(1)?;
        self.lefts.reserve(1)?;
        Ok(())
    }

    /// What a line changes.
    pub fn note(&mut self, event: &Event)
        requires { HasRoom self.old }
        ensures { leavings_in self.new ≡ leavings_after (leavings_in self.old) event.now }
    {
        match event {
            Event::Init { object, region, .. } => {
                let init = Registration {
                    object: *object,
                    region: region.0,
                };
                self.inits.insert(0, init).unwrap();
            }
            Event::Final { object, .. } => self.finals.insert(0, *object).unwrap(),
            Event::Leave { region, .. } => self.leaves.insert(0, region.0).unwrap(),
            Event::Left { region, .. } => self.lefts.insert(0, region.0).unwrap(),
            _ => {}
        }
    }
}
