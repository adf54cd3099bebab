// A call of a list, made by its C function. Each contract has the three equations of the C function, and says that what the function
// returned and left is what a list of calls takes from the call.
#![tactic(auto)]

ghost use Rattle.joined.specs.Step.{NewStep, EditStep, DeleteStep, MakeStep, ApplyStep};

pub fn new_step(own: &[u8], out: &mut [u8], written: &mut u64) -> u32
    ensures { NewStep own.now
        result written.old written.new out.old out.new }
{
    collector::sync_new(own, out, written)
}

pub fn edit_step(store: &[u8], item: &[u8], tag: &[u8], out: &mut [u8], written: &mut u64) -> u32
    ensures { EditStep store.now item.now tag.now
        result written.old written.new out.old out.new }
{
    collector::sync_edit(store, item, tag, out, written)
}

pub fn delete_step(store: &[u8], item: &[u8], out: &mut [u8], written: &mut u64) -> u32
    ensures { DeleteStep store.now item.now
        result written.old written.new out.old out.new }
{
    collector::sync_delete(store, item, out, written)
}

pub fn make_step(
    store: &[u8],
    knowledge: &[u8],
    first: &[u8],
    last: &[u8],
    out: &mut [u8],
    written: &mut u64,
) -> u32
    ensures { MakeStep store.now knowledge.now first.now last.now
        result written.old written.new out.old out.new }
{
    collector::sync_make(store, knowledge, first, last, out, written)
}

pub fn apply_step(store: &[u8], batch: &[u8], out: &mut [u8], written: &mut u64) -> u32
    ensures { ApplyStep store.now batch.now
        result written.old written.new out.old out.new }
{
    collector::sync_apply(store, batch, out, written)
}
