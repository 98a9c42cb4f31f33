// What the walk over a tree's nodes finds, as plain numbers.
ghost use Rattle.std.specs.Prelude.{◌≡◌, not, ◌&&◌, is_some, slice_index};
ghost use Rattle.tree.specs.Certificates.{class_list, blank};

// The class of each of the eight inputs; those past the script's inputs mean nothing.
// Kept as eight fields: by a rule of the project the classes of a certificate are no array.
#[derive(Clone, Copy, PartialEq, Eq, Debug, Default)]
pub struct Classes {
    pub input0: u8,
    pub input1: u8,
    pub input2: u8,
    pub input3: u8,
    pub input4: u8,
    pub input5: u8,
    pub input6: u8,
    pub input7: u8,
}

// How many nodes, the first wrong one, the first that leaks, and the class of each input.
#[derive(Clone, Copy, PartialEq, Eq, Debug, Default)]
pub struct Certificate {
    pub nodes: u16,
    pub wrong: Option<u16>,
    pub leaking: Option<u16>,
    pub classes: Classes,
}

impl Classes {
    // The class of the input, 0 where there is no such input.
    pub fn of(&self, input: u8) -> u8
        ensures { result ≡ slice_index (class_list self.now) input }
    {
        match input {
            0 => self.input0,
            1 => self.input1,
            2 => self.input2,
            3 => self.input3,
            4 => self.input4,
            5 => self.input5,
            6 => self.input6,
            7 => self.input7,
            _ => 0,
        }
    }
}

impl Certificate {
    // Nothing noted yet: no node, and all inputs of one class.
    pub fn blank() -> Certificate
        ensures { result ≡ blank }
    {
        Certificate::default()
    }

    // Whether no node is wrong and none leaks.
    pub fn is_faultless(&self) -> bool
        ensures { result ≡ (not (is_some self.now.wrong) && not (is_some self.now.leaking)) }
    {
        self.wrong.is_none() && self.leaking.is_none()
    }
}
