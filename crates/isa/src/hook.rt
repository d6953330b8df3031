//! The hooks: the points in the router at which programs are called.
ghost use Rattle.std.specs.Prelude.{◌≡◌, IfSome, Some};
ghost use Rattle.isa.specs.declared.hook.Hook.{Hook};
ghost use Rattle.isa.specs.Hooks.{hook_number, hook_name};

/// The point in the router at which a program is called.
#[derive(Clone, Copy, PartialEq, Eq, Debug)]
pub enum Hook {
    /// For each datagram, before it is read: once for each try of its turn, unless the published
    /// programs can't be read then.
    Count,
    /// For the tag of an external destination that is to be announced.
    Tag,
    /// For the metric of an external destination that is to be announced.
    Price,
    /// For each route, before it enters the table.
    Veto,
}

impl Hook {
    /// Its number in object files and contexts: 1 to 4, in the order of the variants.
    pub fn number(self) -> u8
        ensures { result ≡ hook_number self }
    {
        match self {
            Hook::Count => 1,
            Hook::Tag => 2,
            Hook::Price => 3,
            Hook::Veto => 4,
        }
    }

    /// Its name in texts and on command lines.
    pub fn name(self) -> &'static str
        ensures { result.now ≡ hook_name self }
    {
        match self {
            Hook::Count => "count",
            Hook::Tag => "tag",
            Hook::Price => "price",
            Hook::Veto => "veto",
        }
    }

    /// The hook with this name, if there is one.
    pub fn from_name(name: &str) -> Option<Hook>
        ensures found { IfSome result (λ hook. name.now ≡ hook_name hook) }
        ensures only { (hook : Hook) → name.now ≡ hook_name hook → result ≡ Some hook }
    {
        match name {
            "count" => Some(Hook::Count),
            "tag" => Some(Hook::Tag),
            "price" => Some(Hook::Price),
            "veto" => Some(Hook::Veto),
            _ => None,
        }
    }

    /// The hook with this number, if there is one.
    pub fn from_number(number: u8) -> Option<Hook>
        ensures found { IfSome result (λ hook. hook_number hook ≡ number) }
        ensures only { (hook : Hook) → hook_number hook ≡ number → result ≡ Some hook }
    {
        match number {
            1 => Some(Hook::Count),
            2 => Some(Hook::Tag),
            3 => Some(Hook::Price),
            4 => Some(Hook::Veto),
            _ => None,
        }
    }
}
