//! Lists of what is found and read. The check of borrows asks that a function which adds an item
//! names the types in it that hold numbers, so each such list has its function here.
ghost use Rattle.std.specs.Prelude.{◌≡◌, ◌++◌, ◌∷◌, [], OnOk};

use crate::findings::{Attached, Ceiling, Finding};
use crate::numbers::Number;
use crate::parts::{AspectPart, ChoicePart, Span};
use ann_base::NoMemory;
use profile_image::ImageList;
use world_tables::List;

fn add_to_found(
    found: &mut List<Finding>,
    finding: Finding,
    _attached: Option<Attached>,
    _ceiling: Option<Ceiling>,
    _number: Option<Number>,
) -> Result<(), NoMemory>
    ensures { OnOk result (found.new ≡ found.old ++ finding ∷ []) }
{
    found.push_back(finding)?;
    Ok(())
}

/// One more finding.
pub fn add_finding(found: &mut List<Finding>, finding: Finding) -> Result<(), NoMemory>
    ensures { OnOk result (found.new ≡ found.old ++ finding ∷ []) }
{
    add_to_found(found, finding, None, None, None)
}

fn add_to_list(
    all: &mut ImageList<Finding>,
    finding: Finding,
    _attached: Option<Attached>,
    _ceiling: Option<Ceiling>,
    _number: Option<Number>,
) -> Result<(), NoMemory>
    ensures { OnOk result (all.new ≡ all.old ++ finding ∷ []) }
{
    all.push(finding)?;
    Ok(())
}

/// One more finding in a list without a front.
pub fn list_finding(all: &mut ImageList<Finding>, finding: Finding) -> Result<(), NoMemory>
    ensures { OnOk result (all.new ≡ all.old ++ finding ∷ []) }
{
    add_to_list(all, finding, None, None, None)
}

fn add_to_aspects(
    parts: &mut ImageList<AspectPart>,
    part: AspectPart,
    _number: Option<Number>,
) -> Result<(), NoMemory>
    ensures { OnOk result (parts.new ≡ parts.old ++ part ∷ []) }
{
    parts.push(part)?;
    Ok(())
}

/// One more aspect.
pub fn add_aspect(parts: &mut ImageList<AspectPart>, part: AspectPart) -> Result<(), NoMemory>
    ensures { OnOk result (parts.new ≡ parts.old ++ part ∷ []) }
{
    add_to_aspects(parts, part, part.number)
}

fn add_to_choices(
    parts: &mut ImageList<ChoicePart>,
    part: ChoicePart,
    _values: Option<Span>,
) -> Result<(), NoMemory>
    ensures { OnOk result (parts.new ≡ parts.old ++ part ∷ []) }
{
    parts.push(part)?;
    Ok(())
}

/// One more choice.
pub fn add_choice(parts: &mut ImageList<ChoicePart>, part: ChoicePart) -> Result<(), NoMemory>
    ensures { OnOk result (parts.new ≡ parts.old ++ part ∷ []) }
{
    add_to_choices(parts, part, part.values)
}

/// Some values before the others.
pub fn add_values(all: &mut List<Option<Span>>, values: Option<Span>) -> Result<(), NoMemory>
    ensures { OnOk result (all.new ≡ values ∷ all.old) }
{
    all.push_front(values)?;
    Ok(())
}
