// Copies that share their parts.
ghost use Rattle.std.specs.Prelude.{◌≡◌, IfOk};
ghost use Rattle.cf_value.specs.Seen.{seen_part, seen_parts};
ghost use Rattle.cf_value.specs.Val.{VParts};

use crate::memory::{push, shared};
use crate::values::{Frozen, Value, ValueNode, ValuePart};
use cf_base::NoMemory;
use std::alloc::Global;

impl Value {
    /// The same value once more. Its parts are shared, so it costs as much as its outermost form has parts.
    pub fn copy(&self, alloc: Global) -> Result<Value, NoMemory>
        ensures { IfOk result (λ v. v ≡ self.now) }
    {
        match &self.node {
            ValueNode::Level(n) => Ok(Value::level(*n)),
            ValueNode::Form {
                shape,
                first,
                parts,
            } => {
                let shape = shared(shape)?;
                let first = *first;
                let parts = shared_parts(alloc, parts)?;
                Ok(Value {
                    node: ValueNode::Form {
                        shape,
                        first,
                        parts,
                    },
                })
            }
        }
    }
}

fn shared_parts(alloc: Global, parts: &Vec<ValuePart>) -> Result<Vec<ValuePart>, NoMemory>
    ensures { IfOk result (λ ps. seen_parts ps.items ≡ seen_parts parts.now.items) }
{
    let mut made = Vec::new(alloc);
    for p in parts {
        push(&mut made, p.share()?)?;
    }
    Ok(made)
}

impl ValuePart {
    /// The same part once more, shared.
    pub fn share(&self) -> Result<ValuePart, NoMemory>
        ensures { IfOk result (λ p. (ps : VParts) → seen_part p ps ≡ seen_part self.now ps) }
    {
        match self {
            ValuePart::Ready(v) => Ok(ValuePart::Ready(shared(v)?)),
            ValuePart::Kept(f) => Ok(ValuePart::Kept(f.share()?)),
        }
    }
}

impl Frozen {
    /// The same frozen term once more, shared.
    pub fn share(&self) -> Result<Frozen, NoMemory>
        ensures env { IfOk result (λ f. f.env ≡ self.now.env) }
        ensures body { IfOk result (λ f. f.body.value ≡ self.now.body.value) }
    {
        let env = self.env.share()?;
        let body = shared(&self.body)?;
        Ok(Frozen { env, body })
    }
}
