// The parts of a word: of a header, of a setting, of a parameter.
#![tactic(auto)]

ghost use Rattle.std.specs.Prelude.{◌≡◌};
ghost use Rattle.meaning.specs.Words as parts;

use meaning::SubAddress;

// How many words follow a header.
pub fn count(header: u32) -> u32
    ensures count { result ≡ parts.count header }
{
    header / 65536 % 65536
}

// The byte offset that a header is bound for.
pub fn offset(header: u32) -> u32
    ensures offset { result ≡ parts.offset header }
{
    header % 65536
}

// HParaSubType of a setting.
pub fn sub_type(setting: u32) -> u32
    ensures sub { result ≡ parts.para_sub_type setting }
{
    setting / 16777216 % 256
}

// The sub-address of a parameter.
pub fn sub_address(parameter: u32) -> SubAddress
    ensures address { result ≡ parts.sub_address parameter }
{
    SubAddress(parameter / 16777216 % 256)
}

// The data bits of a parameter.
pub fn data(parameter: u32) -> u32
    ensures bits { result ≡ parts.data24 parameter }
{
    parameter % 16777216
}
