// Faults: what a refused call answers. A fault has a number, the layer that it comes from, and what it names.
ghost use Rattle.std.specs.Prelude.{◌≡◌, ℕ, Option, Some};
ghost use Rattle.circularity.specs.declared.fault.Layer.{Layer as LayerOf};
ghost use Rattle.circularity.specs.declared.fault.Named.{Named as NamedOf};
ghost use Rattle.circularity.specs.Faults.{number_of, layer_of, named_by, layer_text, named_text, refusal_text};

use std::fmt;

// The layers of the library, the lowest first.
#[derive(Clone, Copy, PartialEq, Eq)]
pub enum Layer {
    Language,
    Table,
    Edit,
    Reading,
}

impl fmt::Display for Layer {
    ghost output = { λ layer. Some (layer_text layer) };

    fn fmt<W: fmt::Write>(&self, f: &mut fmt::Formatter<W>) -> fmt::Result {
        f.write_str(match self {
            Layer::Language => "language",
            Layer::Table => "table",
            Layer::Edit => "edit",
            Layer::Reading => "reading",
        })
    }
}

// What a fault names, where it names something.
#[derive(Clone, Copy, PartialEq, Eq)]
pub enum Named {
    Production(u8),
    Node(u16),
}

impl fmt::Display for Named {
    ghost output = { λ named. Some (named_text named) };

    fn fmt<W: fmt::Write>(&self, f: &mut fmt::Formatter<W>) -> fmt::Result {
        match self {
            Named::Production(production) => write!(f, "production {production}"),
            Named::Node(node) => write!(f, "node {node}"),
        }
    }
}

// A fault as it is told, of whichever layer: its number, its layer, and what it names.
#[derive(Clone, Copy, PartialEq, Eq)]
pub struct Refusal {
    pub number: u8,
    pub layer: Layer,
    pub named: Option<Named>,
}

impl fmt::Display for Refusal {
    ghost output = { λ refusal. Some (refusal_text refusal) };

    fn fmt<W: fmt::Write>(&self, f: &mut fmt::Formatter<W>) -> fmt::Result {
        let Refusal {
            number,
            layer,
            named,
        } = *self;
        match named {
            Some(named) => write!(f, "refused {number} {layer} {named}"),
            None => write!(f, "refused {number} {layer}"),
        }
    }
}

// The faults of a layer.
pub trait Fault: Copy {
    ghost number_is: { Self → ℕ };

    ghost layer_is: { Self → LayerOf };

    ghost names_what: { Self → Option NamedOf };

    // The number by which programs and documents call the fault; docs/REFERENCE.md lists them.
    fn number(self) -> u8
        ensures { result ≡ number_is self };

    fn layer(self) -> Layer
        ensures { result ≡ layer_is self };

    fn names(self) -> Option<Named>
        ensures { result ≡ names_what self };

    // The fault as it is told.
    fn refusal(self) -> Refusal
        ensures { result ≡ record { number = number_is self; layer = layer_is self; named = names_what self } }
    {
        Refusal {
            number: self.number(),
            layer: self.layer(),
            named: self.names(),
        }
    }
}

// The faults of the language layer: the language is circular, and the production named roots a tree with a cycle through one of its own rules.
#[derive(Clone, Copy, PartialEq, Eq)]
pub enum LanguageFault {
    Circularity(u8),
}

impl Fault for LanguageFault {
    ghost number_is = { number_of };

    ghost layer_is = { layer_of };

    ghost names_what = { named_by };

    fn number(self) -> u8 {
        match self {
            LanguageFault::Circularity(_) => 1,
        }
    }

    fn layer(self) -> Layer {
        match self {
            LanguageFault::Circularity(_) => Layer::Language,
        }
    }

    fn names(self) -> Option<Named> {
        match self {
            LanguageFault::Circularity(production) => Some(Named::Production(production)),
        }
    }
}
