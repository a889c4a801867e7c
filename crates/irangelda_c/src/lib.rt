// The calls from C: each export is irangelda's call of the same name, with its clauses word for word (.ci/public).
#![tactic(auto)]

ghost use Rattle.std.specs.Prelude.{◌≡◌};
ghost use Rattle.meaning.specs.Answers.{number_of};
ghost use Rattle.meaning.specs.Registers as registers;
ghost use Rattle.meaning.specs.Exported as exported;

#[unsafe(no_mangle)]
pub extern "C" fn irangelda_read(batch: &[u8], grants: &[u8], state: &mut [u8]) -> u64
    ensures number { result ≡ number_of (exported.exported_read batch.now grants.now state.old) }
    ensures bytes { state.new ≡ exported.exported_read_leaves batch.now grants.now state.old }
{
    irangelda::irangelda_read(batch, grants, state)
}

#[unsafe(no_mangle)]
pub extern "C" fn irangelda_size(state: &[u8], grants: &[u8]) -> u64
    ensures number { result ≡ number_of (exported.exported_size state.now grants.now) }
{
    irangelda::irangelda_size(state, grants)
}

#[unsafe(no_mangle)]
pub extern "C" fn irangelda_write(state: &[u8], grants: &[u8], out: &mut [u8]) -> u64
    ensures number { result ≡ number_of (exported.exported_write state.now grants.now out.old) }
    ensures bytes { out.new ≡ exported.exported_write_leaves state.now grants.now out.old }
{
    irangelda::irangelda_write(state, grants, out)
}

#[unsafe(no_mangle)]
pub extern "C" fn irangelda_list(state: &[u8], out: &mut [u8]) -> u64
    ensures number { result ≡ number_of (exported.exported_list state.now out.old) }
    ensures bytes { out.new ≡ exported.exported_list_leaves state.now out.old }
{
    irangelda::irangelda_list(state, out)
}

#[unsafe(no_mangle)]
pub extern "C" fn irangelda_read_listing(listing: &[u8], state: &mut [u8]) -> u64
    ensures number { result ≡ number_of (exported.exported_read_listing listing.now state.old) }
    ensures bytes { state.new ≡ exported.exported_read_listing_leaves listing.now state.old }
{
    irangelda::irangelda_read_listing(listing, state)
}

#[unsafe(no_mangle)]
pub extern "C" fn irangelda_which_grant(state: &[u8], grants: &[u8], cell: u32) -> u64
    ensures number { result ≡ number_of (exported.exported_which_grant state.now grants.now (registers.cell cell)) }
{
    irangelda::irangelda_which_grant(state, grants, cell)
}
