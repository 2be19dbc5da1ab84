//! The names in declarations without bodies (ISO/IEC 8652:2012, clauses 3, 6, 9).
ghost use Rattle.std.specs.Prelude.{◌≡◌, ◌++◌, OnOk};
ghost use Rattle.ada_tree.specs.declared.declarations.TypeDefinition.TheVariants as definition;
ghost use Rattle.ada_regions.specs.NamesInDeclarations.{names_in_definition, names_in_profile};

use crate::statements::tell_parameters;
use crate::telling::{Naming, Tell, tell_both, tell_names, tell_private, tell_region};
use ada_regions::{Occurrence, Occurrences};
use ada_tree::{
    Aspect, Component, EntryDeclaration, Expression, Identifier, Name, ObjectDeclaration,
    OneOrMore, ProtectedDeclaration, ProtectedOperation, SubprogramSpecification,
    SubtypeDeclaration, SubtypeIndication, TaskDeclaration, TaskDefinition, TypeDeclaration,
    TypeDefinition,
};
use ann_base::NoMemory;

/// An object declaration (3.3.1).
impl Tell for ObjectDeclaration {
    ghost use Rattle.ada_regions.specs.NamesInDeclarations.{names_in_object};

    ghost names = { names_in_object };

    fn tell<'t>(&'t self, occurrences: &mut Occurrences<'t>) -> Result<(), NoMemory> {
        tell_names(occurrences, Naming::Hide, &self.names)?;
        self.subtype.tell(occurrences)?;
        self.initial.tell(occurrences)?;
        tell_names(occurrences, Naming::Object(self), &self.names)
    }
}

/// A component (3.8).
impl Tell for Component {
    ghost use Rattle.ada_regions.specs.NamesInDeclarations.{names_in_component};

    ghost names = { names_in_component };

    fn tell<'t>(&'t self, occurrences: &mut Occurrences<'t>) -> Result<(), NoMemory> {
        tell_names(occurrences, Naming::Hide, &self.names)?;
        self.subtype.tell(occurrences)?;
        self.initial.tell(occurrences)?;
        tell_names(occurrences, Naming::Component(self), &self.names)
    }
}

/// An array type (3.6).
fn tell_array<'t>(
    occurrences: &mut Occurrences<'t>,
    name: &'t Identifier,
    low: &'t Expression,
    high: &'t Expression,
    component: &'t SubtypeIndication,
) -> Result<(), NoMemory>
    ensures { OnOk result
        (occurrences.new
        ≡ occurrences.old
        ++ names_in_definition name.now (definition.Array low.now high.now component.now)) }
{
    occurrences.push(Occurrence::Hide { name })?;
    tell_both(occurrences, low, high)?;
    component.tell(occurrences)?;
    occurrences.push(Occurrence::DeclareArray {
        name,
        low,
        high,
        component,
    })
}

/// A controlled type with its components (3.9.1).
fn tell_derived<'t>(
    occurrences: &mut Occurrences<'t>,
    name: &'t Identifier,
    parent: &'t Name,
    components: &'t Option<OneOrMore<Component>>,
) -> Result<(), NoMemory>
    ensures { OnOk result
        (occurrences.new
        ≡ occurrences.old
        ++ names_in_definition name.now (definition.Derived parent.now components.now)) }
{
    occurrences.push(Occurrence::Hide { name })?;
    parent.tell(occurrences)?;
    occurrences.push(Occurrence::DeclareDerivedType { name, parent })?;
    tell_region(occurrences, Occurrence::BeginRecord { name }, components)
}

/// A type declaration (3.2.1).
impl Tell for TypeDeclaration {
    ghost use Rattle.ada_regions.specs.NamesInDeclarations.{names_in_type};

    ghost names = { names_in_type };

    fn tell<'t>(&'t self, occurrences: &mut Occurrences<'t>) -> Result<(), NoMemory> {
        let name = &self.name;
        match &self.definition {
            TypeDefinition::Enumeration { literals } => {
                occurrences.push(Occurrence::DeclareEnumeration { name, literals })?;
                tell_names(occurrences, Naming::Literal, literals)
            }
            TypeDefinition::Array {
                low,
                high,
                component,
            } => tell_array(occurrences, name, low, high, component),
            TypeDefinition::Derived { parent, components } => {
                tell_derived(occurrences, name, parent, components)
            }
        }
    }
}

impl Tell for SubtypeDeclaration {
    ghost use Rattle.ada_regions.specs.NamesInDeclarations.{names_in_subtype};

    ghost names = { names_in_subtype };

    fn tell<'t>(&'t self, occurrences: &mut Occurrences<'t>) -> Result<(), NoMemory> {
        occurrences.push(Occurrence::Hide { name: &self.name })?;
        self.subtype.tell(occurrences)?;
        occurrences.push(Occurrence::DeclareSubtype {
            name: &self.name,
            subtype: &self.subtype,
        })
    }
}

impl Tell for Aspect {
    ghost use Rattle.ada_regions.specs.NamesInDeclarations.{names_in_aspect};

    ghost names = { names_in_aspect };

    fn tell<'t>(&'t self, occurrences: &mut Occurrences<'t>) -> Result<(), NoMemory> {
        self.value.tell(occurrences)
    }
}

/// Tells a profile with its aspects (6.1, 13.1.1).
pub fn tell_profile<'t>(
    occurrences: &mut Occurrences<'t>,
    with_cells: bool,
    specification: &'t SubprogramSpecification,
) -> Result<(), NoMemory>
    ensures { OnOk result
        (occurrences.new ≡ occurrences.old ++ names_in_profile with_cells specification.now) }
{
    tell_parameters(occurrences, with_cells, specification.parameters.as_slice())?;
    specification.result.tell(occurrences)?;
    specification.aspects.tell(occurrences)
}

/// A subprogram declaration (6.1).
impl Tell for SubprogramSpecification {
    ghost use Rattle.ada_regions.specs.NamesInDeclarations.{names_in_specification};

    ghost names = { names_in_specification };

    fn tell<'t>(&'t self, occurrences: &mut Occurrences<'t>) -> Result<(), NoMemory> {
        occurrences.push(Occurrence::Hide { name: &self.name })?;
        occurrences.push(Occurrence::BeginProfile)?;
        tell_profile(occurrences, false, self)?;
        occurrences.push(Occurrence::End)?;
        occurrences.push(Occurrence::DeclareSubprogram {
            name: &self.name,
            specification: self,
        })
    }
}

/// An entry declaration (9.5.2).
impl Tell for EntryDeclaration {
    ghost use Rattle.ada_regions.specs.NamesInDeclarations.{names_in_entry};

    ghost names = { names_in_entry };

    fn tell<'t>(&'t self, occurrences: &mut Occurrences<'t>) -> Result<(), NoMemory> {
        occurrences.push(Occurrence::Hide { name: &self.name })?;
        occurrences.push(Occurrence::BeginProfile)?;
        tell_parameters(occurrences, false, self.parameters.as_slice())?;
        occurrences.push(Occurrence::End)?;
        occurrences.push(Occurrence::DeclareEntry {
            name: &self.name,
            parameters: self.parameters.as_slice(),
        })
    }
}

impl Tell for TaskDefinition {
    ghost use Rattle.ada_regions.specs.NamesInDeclarations.{names_in_task_definition};

    ghost names = { names_in_task_definition };

    fn tell<'t>(&'t self, occurrences: &mut Occurrences<'t>) -> Result<(), NoMemory> {
        self.entries.tell(occurrences)
    }
}

/// A task declaration (9.1).
impl Tell for TaskDeclaration {
    ghost use Rattle.ada_regions.specs.NamesInDeclarations.{names_in_task};

    ghost names = { names_in_task };

    fn tell<'t>(&'t self, occurrences: &mut Occurrences<'t>) -> Result<(), NoMemory> {
        occurrences.push(Occurrence::Hide { name: &self.name })?;
        self.aspects.tell(occurrences)?;
        occurrences.push(Occurrence::DeclareTask {
            name: &self.name,
            is_type: self.is_type,
            aspects: self.aspects.as_slice(),
        })?;
        tell_region(
            occurrences,
            Occurrence::BeginUnit { name: &self.name },
            &self.definition,
        )
    }
}

impl Tell for ProtectedOperation {
    ghost use Rattle.ada_regions.specs.NamesInDeclarations.{names_in_operation};

    ghost names = { names_in_operation };

    fn tell<'t>(&'t self, occurrences: &mut Occurrences<'t>) -> Result<(), NoMemory> {
        match self {
            ProtectedOperation::Subprogram(specification) => specification.tell(occurrences),
            ProtectedOperation::Entry(entry) => entry.tell(occurrences),
        }
    }
}

/// A protected declaration (9.4).
impl Tell for ProtectedDeclaration {
    ghost use Rattle.ada_regions.specs.NamesInDeclarations.{names_in_protected};

    ghost names = { names_in_protected };

    fn tell<'t>(&'t self, occurrences: &mut Occurrences<'t>) -> Result<(), NoMemory> {
        occurrences.push(Occurrence::Hide { name: &self.name })?;
        self.aspects.tell(occurrences)?;
        occurrences.push(Occurrence::DeclareProtected {
            name: &self.name,
            is_type: self.is_type,
            aspects: self.aspects.as_slice(),
        })?;
        occurrences.push(Occurrence::BeginUnit { name: &self.name })?;
        self.operations.tell(occurrences)?;
        tell_private(occurrences, &self.components)?;
        occurrences.push(Occurrence::End)
    }
}
