//! Who may do what with a file.
ghost use Rattle.std.specs.Prelude.{◌≡◌, ◌≤◌};
ghost use Rattle.text_files.specs.Rights.{both, for_other_group, for_other_owner, has, kept, mode_of, number_of};
ghost use Rattle.text_files.specs.Rights.{number_of_class};

/// What a class of users may do with a file.
#[derive(Clone, Copy, Debug, PartialEq, Eq)]
pub struct Access {
    /// Whether they may read it.
    pub read: bool,
    /// Whether they may write it.
    pub write: bool,
    /// Whether they may run it.
    pub execute: bool,
}

/// What a file lets its owner, its group and all others do.
#[derive(Clone, Copy, Debug, PartialEq, Eq)]
pub struct FileMode {
    /// Whether a program in it runs as its owner.
    pub set_user: bool,
    /// Whether a program in it runs as its group.
    pub set_group: bool,
    /// Whether it is sticky, which means nothing for a file today.
    pub sticky: bool,
    /// What its owner may do.
    pub owner: Access,
    /// What its group may do, but for the owner.
    pub group: Access,
    /// What all others may do.
    pub others: Access,
}

/// Whose a file is, and who may do what with it.
#[derive(Clone, Copy, Debug, PartialEq, Eq)]
pub struct Rights {
    /// The number of its owner.
    pub owner: u32,
    /// The number of its group.
    pub group: u32,
    /// What it lets them and others do.
    pub mode: FileMode,
}

impl Access {
    /// What both this class and another one may do.
    fn both(self, other: Access) -> Access
        ensures { result ≡ both self other }
    {
        Access {
            read: self.read && other.read,
            write: self.write && other.write,
            execute: self.execute && other.execute,
        }
    }

    /// The three bits of a class, of which reading is the highest.
    fn number(self) -> u32
        ensures number { result ≡ number_of_class self }
        ensures bound { result ≤ 7 }
    {
        4 * u32::from(self.read) + 2 * u32::from(self.write) + u32::from(self.execute)
    }
}

/// Whether a mode has this bit.
fn has(number: u32, bit: u32) -> bool
    ensures { result ≡ has number bit }
{
    number & bit != 0
}

impl FileMode {
    /// The mode of this number, as `chmod` of POSIX has it. Bits above the lowest twelve count for
    /// nothing.
    pub fn of_number(number: u32) -> FileMode
        ensures { result ≡ mode_of number }
    {
        FileMode {
            set_user: has(number, 0o4000),
            set_group: has(number, 0o2000),
            sticky: has(number, 0o1000),
            owner: Access {
                read: has(number, 0o400),
                write: has(number, 0o200),
                execute: has(number, 0o100),
            },
            group: Access {
                read: has(number, 0o40),
                write: has(number, 0o20),
                execute: has(number, 0o10),
            },
            others: Access {
                read: has(number, 0o4),
                write: has(number, 0o2),
                execute: has(number, 0o1),
            },
        }
    }

    /// The number of the mode.
    pub fn number(self) -> u32
        ensures { result ≡ number_of self }
    {
        let special = 4 * u32::from(self.set_user)
            + 2 * u32::from(self.set_group)
            + u32::from(self.sticky);
        0o1000 * special
            + 0o100 * self.owner.number()
            + 0o10 * self.group.number()
            + self.others.number()
    }

    /// The mode of a file that takes the place of one with this mode, if it belongs to the same owner
    /// or not, and to the same group or not.
    pub fn kept(self, has_owner: bool, has_group: bool) -> FileMode
        ensures { result ≡ kept self has_owner has_group }
    {
        let mut mode = self;
        if !has_group {
            mode = mode.for_other_group();
        }
        if !has_owner {
            mode = mode.for_other_owner();
        }
        mode
    }

    /// The mode of a file of another group. Users of the old one may be among all others now, and
    /// some others in the new group, so both may do what both might.
    fn for_other_group(self) -> FileMode
        ensures { result ≡ for_other_group self }
    {
        let shared = self.group.both(self.others);
        FileMode {
            set_user: false,
            set_group: false,
            sticky: false,
            owner: self.owner,
            group: shared,
            others: shared,
        }
    }

    /// The mode of a file of another owner. The old one is in the group now or among all others, so
    /// these may do no more than the owner might.
    fn for_other_owner(self) -> FileMode
        ensures { result ≡ for_other_owner self }
    {
        FileMode {
            set_user: false,
            set_group: false,
            sticky: false,
            owner: self.owner,
            group: self.group.both(self.owner),
            others: self.others.both(self.owner),
        }
    }
}
