// Lists by place and buffers that are written into: definitions in specs/, laws in proofs/. There is no code here.
#![tactic(auto)]
