//! Requests of names.
ghost use Rattle.std.specs.Prelude.{◌≡◌, option_map};
ghost use Rattle.policy_args.specs.Requests.{access_member, access_property, asked_name, level_asked};

use crate::Level;
use dbus_names::Name;

/// How properties of an interface are asked for (D-Bus Specification, "org.freedesktop.DBus.Properties").
#[derive(Drop)]
pub enum Access {
    /// One property is read.
    Get(Name),
    /// One property is set.
    Set(Name),
    /// All properties are read.
    GetAll,
}

/// A request to the owner of a well-known name, or to the bus about it.
pub enum Asked {
    /// A method call, with an interface or without one.
    Call {
        name: Name,
        path: Name,
        interface: Option<Name>,
        member: Name,
    },
    /// A signal to the owner of the name only.
    Signal(Name),
    /// A request to own the name.
    Own(Name),
    /// A request for the owner of the name.
    Owner(Name),
    /// A signal of the name's owner that is sent to all who match it.
    Broadcast {
        name: Name,
        path: Name,
        interface: Name,
        member: Name,
    },
    /// Properties of an interface are read or set at a path.
    Property {
        name: Name,
        path: Name,
        interface: Name,
        access: Access,
    },
}

// Its drop is a call, so that a function that drops one is short to prove.
impl Drop for Asked {
    fn drop(self) {
        match self {
            Asked::Call {
                name: _name,
                path: _path,
                interface: _interface,
                member: _member,
            } => {}
            Asked::Signal(_name) => {}
            Asked::Own(_name) => {}
            Asked::Owner(_name) => {}
            Asked::Broadcast {
                name: _name,
                path: _path,
                interface: _interface,
                member: _member,
            } => {}
            Asked::Property {
                name: _name,
                path: _path,
                interface: _interface,
                access: _access,
            } => {}
        }
    }
}

impl Access {
    // The method that is called.
    pub(crate) fn member(&self) -> &str
        ensures { result.now ≡ access_member self.now }
    {
        match self {
            Access::Get(_) => "Get",
            Access::Set(_) => "Set",
            Access::GetAll => "GetAll",
        }
    }

    // The property that is named.
    pub(crate) fn property(&self) -> Option<&str>
        ensures { option_map (λ p. p.now) result ≡ access_property self.now }
    {
        match self {
            Access::Get(property) | Access::Set(property) => Some(property.as_str()),
            Access::GetAll => None,
        }
    }
}

impl Asked {
    /// The name to which the request is sent, or that it asks about.
    pub fn name(&self) -> &str
        ensures { result.now ≡ asked_name self.now }
    {
        match self {
            Asked::Call { name, .. }
            | Asked::Signal(name)
            | Asked::Own(name)
            | Asked::Owner(name)
            | Asked::Broadcast { name, .. }
            | Asked::Property { name, .. } => name.as_str(),
        }
    }

    // The level that permits the request without a rule.
    pub(crate) fn level(&self) -> Level
        ensures { result ≡ level_asked self.now }
    {
        match self {
            Asked::Call { .. }
            | Asked::Signal(_)
            | Asked::Broadcast { .. }
            | Asked::Property { .. } => Level::Talk,
            Asked::Own(_) => Level::Own,
            Asked::Owner(_) => Level::See,
        }
    }
}
