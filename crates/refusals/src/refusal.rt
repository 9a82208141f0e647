ghost use Rattle.std.specs.Prelude.{◌≡◌};

/// The layer that refuses.
#[derive(Clone, Copy, PartialEq, Eq, Debug)]
pub enum Layer {
    File,
    Graph,
    Plan,
    Store,
    Read,
    Walk,
    Writing,
    Field,
    Payload,
}

/// A refusal's number, layer and place. A place that the number does not name is 0.
// The number is a number: it is what the device answers, and its table says what it means.
#[derive(Clone, Copy, PartialEq, Eq, Debug)]
pub struct Refusal {
    pub number: u8,
    pub layer: Layer,
    pub first: u16,
    pub second: u16,
}

impl Refusal {
    /// The refusal of a number and a layer that names no place.
    pub fn new(number: u8, layer: Layer) -> Refusal
        ensures { result ≡ record { number = number; layer = layer; first = 0; second = 0 } }
    {
        Refusal::at(number, layer, 0, 0)
    }

    /// The refusal of a number and a layer at a place.
    pub fn at(number: u8, layer: Layer, first: u16, second: u16) -> Refusal
        ensures { result ≡ record { number = number; layer = layer; first = first; second = second } }
    {
        Refusal {
            number,
            layer,
            first,
            second,
        }
    }
}
