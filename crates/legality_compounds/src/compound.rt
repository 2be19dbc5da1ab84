//! Conditional statements, cases, loops and blocks (ISO/IEC 8652:2012, 5.3 to 5.6).
ghost use Rattle.std.specs.Prelude.{◌≡◌, ◌++◌, IfOk, OnOk};
ghost use Rattle.std.specs.List.{flat_map};
ghost use Rattle.ada_regions.specs.Words.{all_of};
ghost use Rattle.ada_legality.specs.Places.{place_of_iteration, place_of_loop};
ghost use Rattle.ada_legality.specs.Statements.{choices_of_case, entity_of_label};

use crate::judging::{Judge, judge_all, judge_each, judge_if};
use ada_entities::entity_denoted;
use ada_legality::{Around, Finding, Known};
use ada_tree::{Case, CaseAlternative, Elsif, If, Iteration, Label, Loop};
use ann_base::{NoMemory, Place};
use legality_cases::{ChoiceOf, add_choices, case_judged, choices_read, type_of_selector};
use legality_conditions::condition_found;
use legality_entities::with_around;
use legality_expressions::Readable;
use legality_statements::{iteration_found, with_iteration};
use profile_image::ImageList;
use std::alloc::Global;
use world_tables::List;

/// A further condition.
impl<W, Q: Judge<W>> Judge<W> for Elsif<Q> {
    ghost use Rattle.ada_legality.specs.Statements.{elsif_found};

    ghost judged = { elsif_found Q.judged };

    fn judge(
        &self,
        alloc: Global,
        found: &mut List<Finding>,
        known: &Known<'_, '_>,
    ) -> Result<(), NoMemory> {
        condition_found(alloc, found, known, &self.condition)?;
        self.statements.judge(alloc, found, known)
    }
}

/// An if statement.
impl<W, Q: Judge<W>> Judge<W> for If<Q> {
    ghost use Rattle.ada_legality.specs.Statements.{if_found};

    ghost judged = { if_found Q.judged };

    #[tactic(auto, unfolding(ada_legality::specs::Statements::if_found))]
    fn judge(
        &self,
        alloc: Global,
        found: &mut List<Finding>,
        known: &Known<'_, '_>,
    ) -> Result<(), NoMemory> {
        condition_found(alloc, found, known, &self.condition)?;
        self.statements.judge(alloc, found, known)?;
        judge_each(alloc, found, known, self.elsifs.as_slice())?;
        judge_if(alloc, found, known, &self.otherwise)
    }
}

/// The statements of an alternative of a case.
impl<W, Q: Judge<W>> Judge<W> for CaseAlternative<Q> {
    ghost use Rattle.ada_legality.specs.Statements.{case_alternative_found};

    ghost judged = { case_alternative_found Q.judged };

    fn judge(
        &self,
        alloc: Global,
        found: &mut List<Finding>,
        known: &Known<'_, '_>,
    ) -> Result<(), NoMemory> {
        self.statements.judge(alloc, found, known)
    }
}

/// Adds the choices of the alternatives behind the first.
fn add_further<'t, Q>(
    choices: &mut ImageList<ChoiceOf<'t>>,
    alternatives: &'t [CaseAlternative<Q>],
) -> Result<(), NoMemory>
    ensures { OnOk result
        (choices.new ≡ choices.old ++ flat_map (λ a. all_of a.choices) alternatives.now) }
{
    for alternative in alternatives {
        add_choices(choices, &alternative.choices)?;
    }
    Ok(())
}

/// All choices of a case.
#[tactic(auto, unfolding(ada_legality::specs::Statements::choices_of_case))]
fn choices_of_case<'t, W, Q: Judge<W>>(
    alloc: Global,
    statement: &'t Case<Q>,
) -> Result<ImageList<ChoiceOf<'t>>, NoMemory>
    ensures { IfOk result (λ choices. choices ≡ choices_of_case Q.judged statement.now) }
{
    let mut choices = ImageList::new(alloc);
    add_choices(&mut choices, &statement.alternatives.first.choices)?;
    add_further(&mut choices, statement.alternatives.others.as_slice())?;
    Ok(choices)
}

/// A case.
impl<W, Q: Judge<W>> Judge<W> for Case<Q> {
    ghost use Rattle.ada_legality.specs.Statements.{case_found};

    ghost judged = { case_found Q.judged };

    #[tactic(auto, unfolding(ada_legality::specs::Statements::case_found))]
    fn judge(
        &self,
        alloc: Global,
        found: &mut List<Finding>,
        known: &Known<'_, '_>,
    ) -> Result<(), NoMemory> {
        let all = choices_of_case(alloc, self)?;
        let read = self.selector.read(alloc, found, known)?;
        let t = type_of_selector(read.typed);
        let choices = choices_read(alloc, found, known, t, all.as_slice())?;
        case_judged(alloc, found, known, self.place, &read, choices.as_slice())?;
        judge_all(alloc, found, known, &self.alternatives)
    }
}

/// Where a loop without a name begins.
fn place_of_iteration(place: Place, iteration: &Iteration) -> Place
    ensures { result ≡ place_of_iteration place iteration.now }
{
    match iteration {
        Iteration::Forever => place,
        Iteration::While { place, .. } => *place,
        Iteration::For { place, .. } => *place,
    }
}

/// A loop begins with its name, where it has one.
fn place_of_loop<Q>(statement: &Loop<Q>) -> Place
    ensures { result ≡ place_of_loop statement.now }
{
    match &statement.label {
        None => place_of_iteration(statement.place, &statement.iteration),
        Some(label) => label.name.place,
    }
}

/// The entity of a label.
fn entity_of_label(known: &Known<'_, '_>, label: &Option<Label>) -> Option<u32>
    ensures { result ≡ entity_of_label known.now label.now }
{
    let label = label.as_ref()?;
    entity_denoted(known.names.get(), label.name.place)
}

/// A loop.
impl<W, Q: Judge<W>> Judge<W> for Loop<Q> {
    ghost use Rattle.ada_legality.specs.Statements.{loop_found};

    ghost judged = { loop_found Q.judged };

    #[tactic(auto, unfolding(ada_legality::specs::Statements::loop_found))]
    fn judge(
        &self,
        alloc: Global,
        found: &mut List<Finding>,
        known: &Known<'_, '_>,
    ) -> Result<(), NoMemory> {
        iteration_found(alloc, found, known, place_of_loop(self), &self.iteration)?;
        let entity = entity_of_label(known, &self.label);
        let behind = with_iteration(alloc, known, &self.iteration)?;
        let inside = with_around(&behind, Around::Loop(entity))?;
        self.statements.judge(alloc, found, &inside)
    }
}
