//! The histories of RabbitMQ's six tutorials, which stand in the folder `examples` too, each with its records. `examples/check.py` sees
//! that the files there are these events.

pub const HISTORIES: &str = "
# examples/tutorial-1-hello-world.txt
call 1 channel.open -> ticket 1
next 1 -> frame method 1 channel.open
recv method 1 channel.open-ok -> received
call 1 queue.declare x68656c6c6f 0 0 0 0 0 {} -> ticket 2
next 1 -> frame method 1 queue.declare x68656c6c6f 0 0 0 0 0 {}
recv method 1 queue.declare-ok x68656c6c6f 0 0 -> received
ticket 2 -> answer queue x68656c6c6f 0 0
call 1 basic.publish x x68656c6c6f 0 0 x48656c6c6f20576f726c6421 [] -> publish 3 1
next 1 -> frame method 1 basic.publish x x68656c6c6f 0 0
next 1 -> frame header 1 60 12 []
next 1 -> frame body 1 x48656c6c6f20576f726c6421
ticket 3 -> answer confirm 1
call 2 channel.open -> ticket 4
next 1 -> frame method 2 channel.open
recv method 2 channel.open-ok -> received
call 2 queue.declare x68656c6c6f 0 0 0 0 0 {} -> ticket 5
next 1 -> frame method 2 queue.declare x68656c6c6f 0 0 0 0 0 {}
recv method 2 queue.declare-ok x68656c6c6f 1 0 -> received
ticket 5 -> answer queue x68656c6c6f 1 0
call 2 basic.consume x68656c6c6f x 0 1 0 0 {} -> ticket 6
next 1 -> frame method 2 basic.consume x68656c6c6f x 0 1 0 0 {}
recv method 2 basic.consume-ok x616d712e637461672d31 -> received
ticket 6 -> answer consumer 1
consumer 1 -> pending
recv method 2 basic.deliver x616d712e637461672d31 1 0 x x68656c6c6f -> received
recv header 2 60 12 [] -> received
recv body 2 x48656c6c6f20576f726c6421 -> received
consumer 1 -> item 1 x x68656c6c6f 0 [] x48656c6c6f20576f726c6421 1
consumer 1 -> pending
call 0 connection.close 200 x476f6f64627965 -> ticket 7
next 1 -> frame method 0 connection.close 200 x476f6f64627965 0 0
recv method 0 connection.close-ok -> received
ticket 7 -> answer done
consumer 1 -> failed InvalidChannelState down
consumer 1 -> end

# examples/tutorial-2-work-queues.txt
call 1 channel.open -> ticket 1
next 1 -> frame method 1 channel.open
recv method 1 channel.open-ok -> received
call 2 channel.open -> ticket 2
next 1 -> frame method 2 channel.open
recv method 2 channel.open-ok -> received
call 3 channel.open -> ticket 3
next 1 -> frame method 3 channel.open
recv method 3 channel.open-ok -> received
call 1 queue.declare x7461736b5f7175657565 0 1 0 0 0 {} -> ticket 4
next 1 -> frame method 1 queue.declare x7461736b5f7175657565 0 1 0 0 0 {}
recv method 1 queue.declare-ok x7461736b5f7175657565 0 0 -> received
ticket 4 -> answer queue x7461736b5f7175657565 0 0
call 2 basic.qos 1 0 -> ticket 5
next 1 -> frame method 2 basic.qos 1 0
recv method 2 basic.qos-ok -> received
call 2 basic.consume x7461736b5f7175657565 x 0 0 0 0 {} -> ticket 6
next 1 -> frame method 2 basic.consume x7461736b5f7175657565 x 0 0 0 0 {}
recv method 2 basic.consume-ok x616d712e637461672d31 -> received
call 3 basic.qos 1 0 -> ticket 7
next 1 -> frame method 3 basic.qos 1 0
recv method 3 basic.qos-ok -> received
call 3 basic.consume x7461736b5f7175657565 x 0 0 0 0 {} -> ticket 8
next 1 -> frame method 3 basic.consume x7461736b5f7175657565 x 0 0 0 0 {}
recv method 3 basic.consume-ok x616d712e637461672d32 -> received
ticket 6 -> answer consumer 1
ticket 8 -> answer consumer 2
call 1 basic.publish x x7461736b5f7175657565 0 0 x4669727374206d6573736167652e [delivery_mode=2] -> publish 9 1
next 1 -> frame method 1 basic.publish x x7461736b5f7175657565 0 0
next 1 -> frame header 1 60 14 [delivery_mode=2]
next 1 -> frame body 1 x4669727374206d6573736167652e
call 1 basic.publish x x7461736b5f7175657565 0 0 x5365636f6e64206d6573736167652e2e [delivery_mode=2] -> publish 10 2
next 1 -> frame method 1 basic.publish x x7461736b5f7175657565 0 0
next 1 -> frame header 1 60 16 [delivery_mode=2]
next 1 -> frame body 1 x5365636f6e64206d6573736167652e2e
call 1 basic.publish x x7461736b5f7175657565 0 0 x5468697264206d6573736167652e2e2e [delivery_mode=2] -> publish 11 3
next 1 -> frame method 1 basic.publish x x7461736b5f7175657565 0 0
next 1 -> frame header 1 60 16 [delivery_mode=2]
next 1 -> frame body 1 x5468697264206d6573736167652e2e2e
recv method 2 basic.deliver x616d712e637461672d31 1 0 x x7461736b5f7175657565 -> received
recv header 2 60 14 [delivery_mode=2] -> received
recv body 2 x4669727374206d6573736167652e -> received
recv method 3 basic.deliver x616d712e637461672d32 1 0 x x7461736b5f7175657565 -> received
recv header 3 60 16 [delivery_mode=2] -> received
recv body 3 x5365636f6e64206d6573736167652e2e -> received
consumer 1 -> item 1 x x7461736b5f7175657565 0 [delivery_mode=2] x4669727374206d6573736167652e 1
consumer 2 -> item 1 x x7461736b5f7175657565 0 [delivery_mode=2] x5365636f6e64206d6573736167652e2e 2
acker 1 ack 0 -> ticket 12
next 1 -> frame method 2 basic.ack 1 0
ticket 12 -> answer yes
recv method 2 basic.deliver x616d712e637461672d31 2 0 x x7461736b5f7175657565 -> received
recv header 2 60 16 [delivery_mode=2] -> received
recv body 2 x5468697264206d6573736167652e2e2e -> received
consumer 1 -> item 2 x x7461736b5f7175657565 0 [delivery_mode=2] x5468697264206d6573736167652e2e2e 3
acker 3 ack 0 -> ticket 13
acker 3 ack 0 -> no
next 1 -> frame method 2 basic.ack 2 0
call 3 channel.close 200 x -> ticket 14
next 1 -> frame method 3 channel.close 200 x 0 0
recv method 3 channel.close-ok -> received
recv method 2 basic.deliver x616d712e637461672d31 3 1 x x7461736b5f7175657565 -> received
recv header 2 60 16 [delivery_mode=2] -> received
recv body 2 x5365636f6e64206d6573736167652e2e -> received
consumer 2 -> end
acker 2 ack 0 -> no
consumer 1 -> item 3 x x7461736b5f7175657565 1 [delivery_mode=2] x5365636f6e64206d6573736167652e2e 4
acker 4 ack 0 -> ticket 15
next 1 -> frame method 2 basic.ack 3 0

# examples/tutorial-3-publish-subscribe.txt
call 1 channel.open -> ticket 1
next 1 -> frame method 1 channel.open
recv method 1 channel.open-ok -> received
call 2 channel.open -> ticket 2
next 1 -> frame method 2 channel.open
recv method 2 channel.open-ok -> received
call 3 channel.open -> ticket 3
next 1 -> frame method 3 channel.open
recv method 3 channel.open-ok -> received
call 2 exchange.declare x6c6f6773 x66616e6f7574 0 0 0 0 0 {} -> ticket 4
next 1 -> frame method 2 exchange.declare x6c6f6773 x66616e6f7574 0 0 0 0 0 {}
recv method 2 exchange.declare-ok -> received
call 2 queue.declare x 0 0 1 0 0 {} -> ticket 5
next 1 -> frame method 2 queue.declare x 0 0 1 0 0 {}
recv method 2 queue.declare-ok x616d712e67656e2d31 0 0 -> received
call 2 queue.bind x616d712e67656e2d31 x6c6f6773 x 0 {} -> ticket 6
next 1 -> frame method 2 queue.bind x616d712e67656e2d31 x6c6f6773 x 0 {}
recv method 2 queue.bind-ok -> received
call 2 basic.consume x616d712e67656e2d31 x 0 1 0 0 {} -> ticket 7
next 1 -> frame method 2 basic.consume x616d712e67656e2d31 x 0 1 0 0 {}
recv method 2 basic.consume-ok x616d712e637461672d31 -> received
call 3 exchange.declare x6c6f6773 x66616e6f7574 0 0 0 0 0 {} -> ticket 8
next 1 -> frame method 3 exchange.declare x6c6f6773 x66616e6f7574 0 0 0 0 0 {}
recv method 3 exchange.declare-ok -> received
call 3 queue.declare x 0 0 1 0 0 {} -> ticket 9
next 1 -> frame method 3 queue.declare x 0 0 1 0 0 {}
recv method 3 queue.declare-ok x616d712e67656e2d32 0 0 -> received
call 3 queue.bind x616d712e67656e2d32 x6c6f6773 x 0 {} -> ticket 10
next 1 -> frame method 3 queue.bind x616d712e67656e2d32 x6c6f6773 x 0 {}
recv method 3 queue.bind-ok -> received
call 3 basic.consume x616d712e67656e2d32 x 0 1 0 0 {} -> ticket 11
next 1 -> frame method 3 basic.consume x616d712e67656e2d32 x 0 1 0 0 {}
recv method 3 basic.consume-ok x616d712e637461672d32 -> received
ticket 5 -> answer queue x616d712e67656e2d31 0 0
ticket 7 -> answer consumer 1
ticket 9 -> answer queue x616d712e67656e2d32 0 0
ticket 11 -> answer consumer 2
call 1 exchange.declare x6c6f6773 x66616e6f7574 0 0 0 0 0 {} -> ticket 12
next 1 -> frame method 1 exchange.declare x6c6f6773 x66616e6f7574 0 0 0 0 0 {}
recv method 1 exchange.declare-ok -> received
call 1 basic.publish x6c6f6773 x 0 0 x696e666f3a2048656c6c6f20576f726c6421 [] -> publish 13 1
next 1 -> frame method 1 basic.publish x6c6f6773 x 0 0
next 1 -> frame header 1 60 18 []
next 1 -> frame body 1 x696e666f3a2048656c6c6f20576f726c6421
recv method 2 basic.deliver x616d712e637461672d31 1 0 x6c6f6773 x -> received
recv header 2 60 18 [] -> received
recv body 2 x696e666f3a2048656c6c6f20576f726c6421 -> received
recv method 3 basic.deliver x616d712e637461672d32 1 0 x6c6f6773 x -> received
recv header 3 60 18 [] -> received
recv body 3 x696e666f3a2048656c6c6f20576f726c6421 -> received
consumer 1 -> item 1 x6c6f6773 x 0 [] x696e666f3a2048656c6c6f20576f726c6421 1
consumer 2 -> item 1 x6c6f6773 x 0 [] x696e666f3a2048656c6c6f20576f726c6421 2
call 2 basic.cancel x616d712e637461672d31 0 -> ticket 14
next 1 -> frame method 2 basic.cancel x616d712e637461672d31 0
call 1 basic.publish x6c6f6773 x 0 0 x7761726e696e673a206469736b2069732066756c6c [] -> publish 15 2
next 1 -> frame method 1 basic.publish x6c6f6773 x 0 0
next 1 -> frame header 1 60 21 []
next 1 -> frame body 1 x7761726e696e673a206469736b2069732066756c6c
recv method 2 basic.deliver x616d712e637461672d31 2 0 x6c6f6773 x -> received
recv header 2 60 21 [] -> received
recv body 2 x7761726e696e673a206469736b2069732066756c6c -> received
recv method 2 basic.cancel-ok x616d712e637461672d31 -> received
recv method 3 basic.deliver x616d712e637461672d32 2 0 x6c6f6773 x -> received
recv header 3 60 21 [] -> received
recv body 3 x7761726e696e673a206469736b2069732066756c6c -> received
ticket 14 -> answer done
consumer 1 -> item 2 x6c6f6773 x 0 [] x7761726e696e673a206469736b2069732066756c6c 3
consumer 1 -> end
consumer 2 -> item 2 x6c6f6773 x 0 [] x7761726e696e673a206469736b2069732066756c6c 4
consumer 2 -> pending

# examples/tutorial-4-routing.txt
call 1 channel.open -> ticket 1
next 1 -> frame method 1 channel.open
recv method 1 channel.open-ok -> received
call 2 channel.open -> ticket 2
next 1 -> frame method 2 channel.open
recv method 2 channel.open-ok -> received
call 3 channel.open -> ticket 3
next 1 -> frame method 3 channel.open
recv method 3 channel.open-ok -> received
call 1 exchange.declare x6469726563745f6c6f6773 x646972656374 0 0 0 0 0 {} -> ticket 4
next 1 -> frame method 1 exchange.declare x6469726563745f6c6f6773 x646972656374 0 0 0 0 0 {}
recv method 1 exchange.declare-ok -> received
call 2 queue.declare x 0 0 1 0 0 {} -> ticket 5
next 1 -> frame method 2 queue.declare x 0 0 1 0 0 {}
recv method 2 queue.declare-ok x616d712e67656e2d31 0 0 -> received
call 2 queue.bind x616d712e67656e2d31 x6469726563745f6c6f6773 x6572726f72 0 {} -> ticket 6
next 1 -> frame method 2 queue.bind x616d712e67656e2d31 x6469726563745f6c6f6773 x6572726f72 0 {}
recv method 2 queue.bind-ok -> received
call 2 basic.consume x616d712e67656e2d31 x 0 0 0 0 {} -> ticket 7
next 1 -> frame method 2 basic.consume x616d712e67656e2d31 x 0 0 0 0 {}
recv method 2 basic.consume-ok x616d712e637461672d31 -> received
ticket 7 -> answer consumer 1
delegate 1 -> delegated
call 3 queue.declare x 0 0 1 0 0 {} -> ticket 8
next 1 -> frame method 3 queue.declare x 0 0 1 0 0 {}
recv method 3 queue.declare-ok x616d712e67656e2d32 0 0 -> received
call 3 queue.bind x616d712e67656e2d32 x6469726563745f6c6f6773 x696e666f 0 {} -> ticket 9
call 3 queue.bind x616d712e67656e2d32 x6469726563745f6c6f6773 x7761726e696e67 0 {} -> ticket 10
call 3 queue.bind x616d712e67656e2d32 x6469726563745f6c6f6773 x6572726f72 0 {} -> ticket 11
next 1 -> frame method 3 queue.bind x616d712e67656e2d32 x6469726563745f6c6f6773 x696e666f 0 {}
next 1 -> frame method 3 queue.bind x616d712e67656e2d32 x6469726563745f6c6f6773 x7761726e696e67 0 {}
next 1 -> frame method 3 queue.bind x616d712e67656e2d32 x6469726563745f6c6f6773 x6572726f72 0 {}
recv method 3 queue.bind-ok -> received
recv method 3 queue.bind-ok -> received
recv method 3 queue.bind-ok -> received
call 3 basic.consume x616d712e67656e2d32 x 0 0 0 0 {} -> ticket 12
next 1 -> frame method 3 basic.consume x616d712e67656e2d32 x 0 0 0 0 {}
recv method 3 basic.consume-ok x616d712e637461672d32 -> received
ticket 12 -> answer consumer 2
delegate 2 -> delegated
call 1 basic.publish x6469726563745f6c6f6773 x6572726f72 0 0 x52756e2e2052756e2e204f722069742077696c6c206578706c6f64652e [] -> publish 13 1
next 1 -> frame method 1 basic.publish x6469726563745f6c6f6773 x6572726f72 0 0
next 1 -> frame header 1 60 29 []
next 1 -> frame body 1 x52756e2e2052756e2e204f722069742077696c6c206578706c6f64652e
call 1 basic.publish x6469726563745f6c6f6773 x696e666f 0 0 x416c6c2069732077656c6c2e [] -> publish 14 2
next 1 -> frame method 1 basic.publish x6469726563745f6c6f6773 x696e666f 0 0
next 1 -> frame header 1 60 12 []
next 1 -> frame body 1 x416c6c2069732077656c6c2e
recv method 2 basic.deliver x616d712e637461672d31 1 0 x6469726563745f6c6f6773 x6572726f72 -> received
recv header 2 60 29 [] -> received
recv body 2 x52756e2e2052756e2e204f722069742077696c6c206578706c6f64652e -> received
recv method 3 basic.deliver x616d712e637461672d32 1 0 x6469726563745f6c6f6773 x6572726f72 -> received
recv header 3 60 29 [] -> received
recv body 3 x52756e2e2052756e2e204f722069742077696c6c206578706c6f64652e -> received
recv method 3 basic.deliver x616d712e637461672d32 2 0 x6469726563745f6c6f6773 x696e666f -> received
recv header 3 60 12 [] -> received
recv body 3 x416c6c2069732077656c6c2e -> received
consumer 2 -> pending
job -> job 1 item 1 x6469726563745f6c6f6773 x6572726f72 0 [] x52756e2e2052756e2e204f722069742077696c6c206578706c6f64652e 1
acker 1 ack 0 -> ticket 15
job -> job 2 item 1 x6469726563745f6c6f6773 x6572726f72 0 [] x52756e2e2052756e2e204f722069742077696c6c206578706c6f64652e 2
acker 2 reject 1 -> ticket 16
job -> job 2 item 2 x6469726563745f6c6f6773 x696e666f 0 [] x416c6c2069732077656c6c2e 3
acker 3 nack 0 0 -> ticket 17
job -> nojob
next 1 -> frame method 2 basic.ack 1 0
next 1 -> frame method 3 basic.reject 1 1
next 1 -> frame method 3 basic.nack 2 0 0
recv method 3 basic.deliver x616d712e637461672d32 3 1 x6469726563745f6c6f6773 x6572726f72 -> received
recv header 3 60 29 [] -> received
recv body 3 x52756e2e2052756e2e204f722069742077696c6c206578706c6f64652e -> received
job -> job 2 item 3 x6469726563745f6c6f6773 x6572726f72 1 [] x52756e2e2052756e2e204f722069742077696c6c206578706c6f64652e 4
acker 4 ack 0 -> ticket 18
next 1 -> frame method 3 basic.ack 3 0
drop 1 -> dropped 0
drop 2 -> dropped 0

# examples/tutorial-5-topics.txt
call 1 channel.open -> ticket 1
next 1 -> frame method 1 channel.open
recv method 1 channel.open-ok -> received
call 2 channel.open -> ticket 2
next 1 -> frame method 2 channel.open
recv method 2 channel.open-ok -> received
call 1 exchange.declare x746f7069635f6c6f6773 x746f706963 0 0 0 0 0 {} -> ticket 3
next 1 -> frame method 1 exchange.declare x746f7069635f6c6f6773 x746f706963 0 0 0 0 0 {}
recv method 1 exchange.declare-ok -> received
call 2 queue.declare x 0 0 1 0 0 {} -> ticket 4
next 1 -> frame method 2 queue.declare x 0 0 1 0 0 {}
recv method 2 queue.declare-ok x616d712e67656e2d31 0 0 -> received
call 2 queue.bind x616d712e67656e2d31 x746f7069635f6c6f6773 x23 0 {} -> ticket 5
next 1 -> frame method 2 queue.bind x616d712e67656e2d31 x746f7069635f6c6f6773 x23 0 {}
recv method 2 queue.bind-ok -> received
call 2 basic.consume x616d712e67656e2d31 x 0 1 0 0 {} -> ticket 6
next 1 -> frame method 2 basic.consume x616d712e67656e2d31 x 0 1 0 0 {}
recv method 2 basic.consume-ok x616d712e637461672d31 -> received
call 2 queue.declare x 0 0 1 0 0 {} -> ticket 7
next 1 -> frame method 2 queue.declare x 0 0 1 0 0 {}
recv method 2 queue.declare-ok x616d712e67656e2d32 0 0 -> received
call 2 queue.bind x616d712e67656e2d32 x746f7069635f6c6f6773 x6b65726e2e2a 0 {} -> ticket 8
next 1 -> frame method 2 queue.bind x616d712e67656e2d32 x746f7069635f6c6f6773 x6b65726e2e2a 0 {}
recv method 2 queue.bind-ok -> received
call 2 queue.bind x616d712e67656e2d32 x746f7069635f6c6f6773 x2a2e637269746963616c 0 {} -> ticket 9
next 1 -> frame method 2 queue.bind x616d712e67656e2d32 x746f7069635f6c6f6773 x2a2e637269746963616c 0 {}
recv method 2 queue.bind-ok -> received
call 2 basic.consume x616d712e67656e2d32 x 0 1 0 0 {} -> ticket 10
next 1 -> frame method 2 basic.consume x616d712e67656e2d32 x 0 1 0 0 {}
recv method 2 basic.consume-ok x616d712e637461672d32 -> received
ticket 6 -> answer consumer 1
ticket 10 -> answer consumer 2
call 1 basic.publish x746f7069635f6c6f6773 x6b65726e2e637269746963616c 0 0 x4120637269746963616c206b65726e656c206572726f72 [] -> publish 11 1
next 1 -> frame method 1 basic.publish x746f7069635f6c6f6773 x6b65726e2e637269746963616c 0 0
next 1 -> frame header 1 60 23 []
next 1 -> frame body 1 x4120637269746963616c206b65726e656c206572726f72
call 1 basic.publish x746f7069635f6c6f6773 x617574682e696e666f 0 0 x4c6f67696e [] -> publish 12 2
next 1 -> frame method 1 basic.publish x746f7069635f6c6f6773 x617574682e696e666f 0 0
next 1 -> frame header 1 60 5 []
next 1 -> frame body 1 x4c6f67696e
recv method 2 basic.deliver x616d712e637461672d31 1 0 x746f7069635f6c6f6773 x6b65726e2e637269746963616c -> received
recv header 2 60 23 [] -> received
recv body 2 x4120637269746963616c206b65726e656c206572726f72 -> received
recv method 2 basic.deliver x616d712e637461672d32 2 0 x746f7069635f6c6f6773 x6b65726e2e637269746963616c -> received
recv header 2 60 23 [] -> received
recv body 2 x4120637269746963616c206b65726e656c206572726f72 -> received
recv method 2 basic.deliver x616d712e637461672d31 3 0 x746f7069635f6c6f6773 x617574682e696e666f -> received
recv header 2 60 5 [] -> received
recv body 2 x4c6f67696e -> received
consumer 1 -> item 1 x746f7069635f6c6f6773 x6b65726e2e637269746963616c 0 [] x4120637269746963616c206b65726e656c206572726f72 1
consumer 1 -> item 3 x746f7069635f6c6f6773 x617574682e696e666f 0 [] x4c6f67696e 3
consumer 2 -> item 2 x746f7069635f6c6f6773 x6b65726e2e637269746963616c 0 [] x4120637269746963616c206b65726e656c206572726f72 2
consumer 2 -> pending
call 1 queue.delete x616d712e67656e2d32 0 0 0 -> ticket 13
next 1 -> frame method 1 queue.delete x616d712e67656e2d32 0 0 0
recv method 2 basic.cancel x616d712e637461672d32 1 -> received
recv method 1 queue.delete-ok 0 -> received
consumer 2 -> end
ticket 13 -> answer count 0
next 1 -> noframe
drop 1 -> dropped 1
next 1 -> frame method 2 basic.cancel x616d712e637461672d31 0
recv method 2 basic.cancel-ok x616d712e637461672d31 -> received
consumer 1 -> end

# examples/tutorial-6-rpc.txt
call 1 channel.open -> ticket 1
next 1 -> frame method 1 channel.open
recv method 1 channel.open-ok -> received
call 2 channel.open -> ticket 2
next 1 -> frame method 2 channel.open
recv method 2 channel.open-ok -> received
call 2 queue.declare x7270635f7175657565 0 0 0 0 0 {} -> ticket 3
next 1 -> frame method 2 queue.declare x7270635f7175657565 0 0 0 0 0 {}
recv method 2 queue.declare-ok x7270635f7175657565 0 0 -> received
call 2 basic.qos 1 0 -> ticket 4
next 1 -> frame method 2 basic.qos 1 0
recv method 2 basic.qos-ok -> received
call 2 basic.consume x7270635f7175657565 x 0 0 0 0 {} -> ticket 5
next 1 -> frame method 2 basic.consume x7270635f7175657565 x 0 0 0 0 {}
recv method 2 basic.consume-ok x616d712e637461672d31 -> received
ticket 5 -> answer consumer 1
call 1 queue.declare x 0 0 1 0 0 {} -> ticket 6
next 1 -> frame method 1 queue.declare x 0 0 1 0 0 {}
recv method 1 queue.declare-ok x616d712e67656e2d31 0 0 -> received
ticket 6 -> answer queue x616d712e67656e2d31 0 0
call 1 basic.consume x616d712e67656e2d31 x 0 1 0 0 {} -> ticket 7
next 1 -> frame method 1 basic.consume x616d712e67656e2d31 x 0 1 0 0 {}
recv method 1 basic.consume-ok x616d712e637461672d32 -> received
ticket 7 -> answer consumer 2
call 1 basic.publish x x7270635f7175657565 0 0 x3330 [correlation_id=x37633862,reply_to=x616d712e67656e2d31] -> publish 8 1
next 1 -> frame method 1 basic.publish x x7270635f7175657565 0 0
next 1 -> frame header 1 60 2 [correlation_id=x37633862,reply_to=x616d712e67656e2d31]
next 1 -> frame body 1 x3330
consumer 2 -> pending
recv method 2 basic.deliver x616d712e637461672d31 1 0 x x7270635f7175657565 -> received
recv header 2 60 2 [correlation_id=x37633862,reply_to=x616d712e67656e2d31] -> received
recv body 2 x3330 -> received
consumer 1 -> item 1 x x7270635f7175657565 0 [correlation_id=x37633862,reply_to=x616d712e67656e2d31] x3330 1
call 2 basic.publish x x616d712e67656e2d31 0 0 x383332303430 [correlation_id=x37633862] -> publish 9 2
acker 1 ack 0 -> ticket 10
next 1 -> frame method 2 basic.ack 1 0
next 1 -> frame method 2 basic.publish x x616d712e67656e2d31 0 0
next 1 -> frame header 2 60 6 [correlation_id=x37633862]
next 1 -> frame body 2 x383332303430
recv method 1 basic.deliver x616d712e637461672d32 1 0 x x616d712e67656e2d31 -> received
recv header 1 60 6 [correlation_id=x37633862] -> received
recv body 1 x383332303430 -> received
consumer 2 -> item 1 x x616d712e67656e2d31 0 [correlation_id=x37633862] x383332303430 2
call 1 channel.close 200 x -> ticket 11
next 1 -> frame method 1 channel.close 200 x 0 0
recv method 1 channel.close-ok -> received
consumer 2 -> end
";
