// Makes up values: mostly such as a register takes, at times such as it refuses, for a reason that is chosen first. The
// second reader's rules only guide the dice.
use crate::answer::Reason;
use crate::dice::Seed;
use crate::second::cell::Cell;
use crate::second::granted::Grants;
use crate::second::table::Role;

// A word of whose bits about a half, a quarter or an eighth are set.
pub(crate) fn some_bits(seed: Seed) -> u32 {
    let bits = seed.throw(1).0;
    match seed.0 % 4 {
        0 => bits,
        1 => bits & seed.throw(2).0,
        _ => bits & seed.throw(2).0 & seed.throw(3).0,
    }
}

// A step off, or none.
pub(crate) fn moved(address: u32, seed: u32) -> u32 {
    match seed % 8 {
        0 => address.wrapping_add(1),
        1 => address.wrapping_sub(1),
        2 => address.wrapping_add(16),
        3 => address.wrapping_sub(16),
        4 => address.wrapping_add(256),
        5 => address.wrapping_sub(256),
        _ => address,
    }
}

// The first address that some grant covers, or the last, or one a step off.
fn some_address(grants: Grants, seed: Seed) -> u32 {
    let number = Seed(seed.0 >> 8).below(grants.0.len() / 5);
    let address = match grants.0.chunks(5).nth(number) {
        Some(&[_, first, length, reach, _]) if seed.0 % 2 == 0 => {
            first.wrapping_add(length.wrapping_sub(reach))
        }
        Some(&[_, first, ..]) => first,
        _ => 0,
    };
    moved(address, seed.0 >> 1)
}

// The dice may set bits that must be clear only for reason 7.
fn any_value(grants: Grants, cell: Cell, wanted: Option<Reason>, seed: Seed) -> u32 {
    let register = cell.register();
    let open = match wanted {
        Some(Reason::NotClear) => u32::MAX,
        _ => !register.clear,
    };
    let bits = some_bits(seed.throw(1)) & open;
    let address = some_address(grants, seed.throw(2));
    cell.value_in(match register.rule.role() {
        None => bits,
        Some(Role::Target) => address >> 8,
        Some(_) => bits & 0xe000000f | address & 0x1ffffff0,
    })
}

// A value that the register refuses for that reason, or with none takes: if one turns up in some throws.
pub(crate) fn some_value(grants: Grants, cell: Cell, wanted: Option<Reason>, seed: Seed) -> u32 {
    (0..16)
        .map(|throws| any_value(grants, cell, wanted, seed.throw(throws)))
        .find(|value| cell.judge(*value, grants).err() == wanted)
        .unwrap_or_else(|| any_value(grants, cell, wanted, seed))
}
