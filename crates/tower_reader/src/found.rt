//! The first offence of each kind.
ghost use Rattle.std.specs.Prelude.{◌≡◌, [], ◌∷◌};
ghost use Rattle.tower_reader.specs.Faults.{number_at, length_at};
ghost use Rattle.tower_reader.specs.Machine.{clean, form_alone, merged, or_else, firsts, is_clean};

/// The first offence of each kind in a node, if it has one.
#[derive(Clone, Copy)]
pub(crate) struct Found {
    pub form: Option<u32>,
    pub number: Option<u32>,
    pub length: Option<u32>,
}

fn or_else(a: Option<u32>, b: Option<u32>) -> Option<u32>
    ensures { result ≡ or_else a b }
{
    match a {
        Some(at) => Some(at),
        None => b,
    }
}

impl Found {
    pub fn clean() -> Found
        ensures { result ≡ clean }
    {
        Found {
            form: None,
            number: None,
            length: None,
        }
    }

    pub fn form_alone(at: u32) -> Found
        ensures { result ≡ form_alone at }
    {
        Found {
            form: Some(at),
            number: None,
            length: None,
        }
    }

    pub fn number_alone(at: u32) -> Found
        ensures { result ≡ firsts (number_at at ∷ []) }
    {
        Found {
            form: None,
            number: Some(at),
            length: None,
        }
    }

    pub fn length_alone(at: u32) -> Found
        ensures { result ≡ firsts (length_at at ∷ []) }
    {
        Found {
            form: None,
            number: None,
            length: Some(at),
        }
    }

    pub fn is_clean(self) -> bool
        ensures { result ≡ is_clean self }
    {
        self.form.is_none() && self.number.is_none() && self.length.is_none()
    }

    /// What was found in a node and in the one behind it.
    pub fn merged(self, behind: Found) -> Found
        ensures { result ≡ merged self behind }
    {
        Found {
            form: or_else(self.form, behind.form),
            number: or_else(self.number, behind.number),
            length: or_else(self.length, behind.length),
        }
    }
}
