// The types of the machine: registers, operations, answers, entries and what a walk finds. Their meaning in numbers
// stands in specs/Numbers.antt.
#![tactic(auto)]

// The registers: the address of the level-one table, the current context (an ASID), the mode, 0 kernel or 1 user, and the domain
// register, which has a field of two bits for each of sixteen domains. Its fields are numbers, since a call may hand any: the check
// of registers turns back what is none (14).
#[derive(Clone, Copy)]
pub struct Registers {
    pub root: u32,
    pub context: u32,
    pub mode: u32,
    pub domains: u32,
}

impl Registers {
    ghost use Rattle.std.specs.Prelude.{◌≡◌};
    ghost use Rattle.model.specs.step.Machine.{tables_of};

    // The tables that the registers name.
    pub fn tables(self) -> Tables
        ensures { result ≡ tables_of self }
    {
        Tables { root: self.root }
    }
}

// The machine of the rules: the N of its TTBCR, and its window in MiB (old_split, old_window).
pub const OLD_SPLIT: u32 = 7;

pub const OLD_WINDOW: u32 = 4;

// What a start is given beside memory and track: the address of the level-one table.
#[derive(Clone, Copy)]
pub struct Setting {
    pub root: u32,
}

// The kinds of operation, in the order of the rules.
#[derive(Clone, Copy)]
pub enum Kind {
    Read,
    Write,
    Root,
    Asid,
    Mode,
    All,
    Addr,
    Ctx,
    AddrCtx,
    Fetch,
    Domain,
}

// An operation with its three fields.
#[derive(Clone, Copy)]
pub struct Operation {
    pub kind: Kind,
    pub a: u32,
    pub b: u32,
    pub c: u32,
}

// What a page maps to: the number of its 4 KiB frame, its access permissions AP[2:0], 1 where a section maps it, else 0, 1 where
// it is global, so that every context may use it, else 0, its XN bit: 1 where nothing may be fetched through it, else 0, and its
// domain, 0 to 15. They are numbers, and what is promised of an entry is promised of each.
#[derive(Clone, Copy)]
pub struct Entry {
    pub frame: u32,
    pub ap: u32,
    pub section: u32,
    pub global: u32,
    pub xn: u32,
    pub domain: u32,
}

// Why an operation carried out gave no value, with its short-descriptor status code.
#[derive(Clone, Copy)]
pub enum Fault {
    Alignment = 1,
    FirstUnmapped = 5,
    SecondUnmapped = 7,
    SectionDomain = 9,
    PageDomain = 0xb,
    SectionPermission = 0xd,
    PagePermission = 0xf,
    FirstOutside = 0xc,
    SecondOutside = 0xe,
    AccessOutside = 8,
}

// Why an operation or a start was turned back, with its number in the rules.
#[derive(Clone, Copy)]
pub enum Refusal {
    WrongSize = 7,
    WrongAddress = 8,
    WrongValue = 9,
    WrongRoot = 10,
    WrongContext = 11,
    WrongMode = 12,
    WrongLengths = 13,
    WrongRegisters = 14,
    UserMode = 15,
    StalePage = 16,
    WrongDomains = 17,
    NotContext0 = 20,
}

// What a start or an operation answers: carried out with a value, carried out with a fault, or turned back.
#[derive(Clone, Copy)]
pub enum Answer {
    Done(u32),
    Faulted(Fault),
    Refused(Refusal),
}

// What a start or an operation returns; memory and track are lent.
#[derive(Clone, Copy)]
pub struct Returned {
    pub answer: Answer,
    pub registers: Registers,
}

// The sizes of a number in memory, in bytes.
#[derive(Clone, Copy)]
pub enum Size {
    One = 1,
    Two = 2,
    Four = 4,
}

// What an access is for: to read, to write, or to fetch an instruction, numbered as the sheet of permissions orders them.
#[derive(Clone, Copy)]
pub enum Purpose {
    ToRead = 0,
    ToWrite = 1,
    ToFetch = 2,
}

// What access permissions allow in a mode: nothing, reading, or reading and writing, each more than the one before.
#[derive(Clone, Copy, PartialEq, Eq, PartialOrd, Ord)]
pub enum Rights {
    Nothing,
    Reading,
    Writing,
}

// What an entry's domain, access permissions and XN bit say of an access, with the numbers of the sheet of permissions.
#[derive(Clone, Copy)]
pub enum Ruling {
    Allowed = 0,
    PermissionDenied = 1,
    DomainDenied = 2,
}

// What a level-one descriptor that points to a level-two table says: the address of the table, and the domain of its pages.
#[derive(Clone, Copy)]
pub struct Pointer {
    pub base: u32,
    pub domain: u32,
}

// Where the level-one descriptor of a page leads, if it maps anything: to a level-two table, or to the entry of a section.
#[derive(Clone, Copy)]
pub enum FirstLevel {
    Table(Pointer),
    Section(Entry),
}

// What level one says of a page.
pub type FirstOutcome = Result<FirstLevel, Fault>;

// What a walk needs to know of the tables beside memory: the address of the level-one table.
#[derive(Clone, Copy)]
pub struct Tables {
    pub root: u32,
}

// What the walk of a page finds.
pub type Outcome = Result<Entry, Fault>;

// What an access comes to: its page is stale, it faults, or its bytes lie at a physical address.
#[derive(Clone, Copy)]
pub enum Access {
    Stale,
    Fails(Fault),
    Physical(usize),
}
